//! Logical lines and tokens of UVL text, the lowest layer of the readers.
//!
//! `logical_lines` cuts a file's bytes into lines of tokens, or names the first place where the text
//! is at fault. A line goes on over line ends inside brackets and comments; its number and indent
//! are those of its first token. `text_of` gives a token's text.
//!
//! A reader above may rely on this: no line is empty, brackets are balanced within each line, a
//! token's kind settles its form, the spans of the tokens lie in the bytes and ascend through the
//! file, and no line has more tokens than the file has bytes. `Bracket`, `Piece`, `Place` and
//! `Shape` are public because the definition of the lines, in `specs/`, names them.
#![tactic(auto)]

mod bracket;
mod class;
mod cursor;
mod error;
pub mod laws;
mod lines;
mod piece;
mod place;
mod reader;
#[cfg(test)]
mod tests;
mod token;
mod word;

pub use bracket::{Bracket, Shape};
pub use error::{LexError, LexReason};
pub use lines::logical_lines;
pub use piece::Piece;
pub use place::Place;
pub use token::{Keyword, Line, Lines, Mark, Token, TokenKind, Tokens, text_of};
