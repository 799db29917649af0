//! The pieces that a text is cut into: blanks, line ends, comments and tokens.
ghost use Rattle.std.specs.Prelude.{◌≡◌, ◌≢◌, ◌<◌, [], IsSome, unwrap_or, MatchOption, IsTrue};
ghost use Rattle.uvl_lex.specs.Pieces.{first, fraction_len, sign_len, exponent_len, starts_name, quote, apostrophe, closed_after};
ghost use Rattle.uvl_lex.specs.inside.Cursors.{left, GoesOn, IsPieceAt};
ghost use Rattle.uvl_lex.specs.inside.Classes.{BeginsNoOther};
ghost use Rattle.std.specs.Char.{is_ascii_digit};

use crate::class::{Class, starts_name};
use crate::cursor::Cursor;
use crate::error::LexReason;
use crate::token::{Mark, TokenKind};
use crate::word::{keyword_of, mark_of};

/// What stands at a place of the text. It is public because the definition of a text's lines names it.
#[derive(Clone, Copy, Debug, PartialEq, Eq)]
pub enum Piece {
    /// A space, a tab or a carriage return.
    Blank,
    /// A line feed.
    LineEnd,
    /// A comment of either form.
    Comment,
    /// A token.
    Lexeme(TokenKind),
    /// What may not stand there.
    Fault(LexReason),
}

/// The piece at the cursor, and the cursor after it.
pub(crate) fn next_piece(cursor: Cursor<'_>) -> (Piece, Cursor<'_>)
    requires { left cursor ≢ [] }
    ensures { IsPieceAt cursor.entry result.0 result.1 }
{
    match cursor.first() {
        ' ' | '\t' | '\r' => (Piece::Blank, cursor.skip()),
        '\n' => (Piece::LineEnd, cursor.skip()),
        '/' => slash(cursor),
        '"' => double_quoted(cursor),
        '\'' => single_quoted(cursor),
        '0'..='9' => number(cursor),
        c if starts_name(c) => name(cursor),
        c => mark(cursor, c),
    }
}

/// A comment, or the mark `/`.
fn slash(cursor: Cursor<'_>) -> (Piece, Cursor<'_>)
    requires { first (left cursor) ≡ 47 }
    ensures { IsPieceAt cursor.entry result.0 result.1 }
{
    let after = cursor.skip();
    match after.first() {
        '/' => (Piece::Comment, cursor.skip_while(Class::InLine).1),
        '*' => {
            let inside = after.skip();
            match after_comment(inside) {
                Some(end) => (Piece::Comment, end),
                None => (Piece::Fault(LexReason::OpenComment), inside),
            }
        }
        _ => (Piece::Lexeme(TokenKind::Mark(Mark::Slash)), after),
    }
}

/// After the first `*/`.
fn after_comment(inside: Cursor<'_>) -> Option<Cursor<'_>>
    ensures { MatchOption result (closed_after (left inside.entry) ≡ None) (λ end. IsSome (closed_after (left inside.entry)) × GoesOn inside.entry (unwrap_or (closed_after (left inside.entry)) 0) end) }
{
    let mut at = inside;
    while let Some((c, after)) = at.step() {
        if c == '*' && after.first() == '/' {
            return Some(after.skip());
        }
        at = after;
    }
    None
}

/// A quoted name or a text between double quotes.
fn double_quoted(cursor: Cursor<'_>) -> (Piece, Cursor<'_>)
    requires { first (left cursor) ≡ quote }
    ensures { IsPieceAt cursor.entry result.0 result.1 }
{
    let inside = cursor.skip();
    let (plain, dotted) = inside.skip_while(Class::Plain);
    let (more, end) = dotted.skip_while(Class::Inside('"'));
    if end.first() != '"' {
        return (Piece::Fault(LexReason::BadToken), inside);
    }
    let kind = if plain > 0 && more == 0 {
        TokenKind::Quoted
    } else {
        TokenKind::Text
    };
    (Piece::Lexeme(kind), end.skip())
}

/// A text between single quotes.
fn single_quoted(cursor: Cursor<'_>) -> (Piece, Cursor<'_>)
    requires { first (left cursor) ≡ apostrophe }
    ensures { IsPieceAt cursor.entry result.0 result.1 }
{
    let inside = cursor.skip();
    let end = inside.skip_while(Class::Inside('\'')).1;
    if end.first() != '\'' {
        return (Piece::Fault(LexReason::BadToken), inside);
    }
    (Piece::Lexeme(TokenKind::Text), end.skip())
}

/// A number, with its fraction and its exponent.
fn number(cursor: Cursor<'_>) -> (Piece, Cursor<'_>)
    requires { IsTrue (is_ascii_digit (first (left cursor))) }
    ensures { IsPieceAt cursor.entry result.0 result.1 }
{
    let whole = cursor.skip_while(Class::Digit).1;
    let end = after_exponent(after_fraction(whole));
    (Piece::Lexeme(TokenKind::Number), end)
}

/// After a dot and digits, where they come next.
fn after_fraction(cursor: Cursor<'_>) -> Cursor<'_>
    ensures { GoesOn cursor.entry (fraction_len (left cursor.entry)) result }
{
    if cursor.first() != '.' {
        return cursor;
    }
    let (count, end) = cursor.skip().skip_while(Class::Digit);
    if count == 0 { cursor } else { end }
}

/// After an exponent, where it comes next.
fn after_exponent(cursor: Cursor<'_>) -> Cursor<'_>
    ensures { GoesOn cursor.entry (exponent_len (left cursor.entry)) result }
{
    if !matches!(cursor.first(), 'e' | 'E') {
        return cursor;
    }
    let (count, end) = after_sign(cursor.skip()).skip_while(Class::Digit);
    if count == 0 { cursor } else { end }
}

/// After a sign, where one comes next.
fn after_sign(cursor: Cursor<'_>) -> Cursor<'_>
    ensures { GoesOn cursor.entry (sign_len (left cursor.entry)) result }
{
    match cursor.first() {
        '+' | '-' => cursor.skip(),
        _ => cursor,
    }
}

/// A name or a keyword.
fn name(cursor: Cursor<'_>) -> (Piece, Cursor<'_>)
    requires { IsTrue (starts_name (first (left cursor))) }
    ensures { IsPieceAt cursor.entry result.0 result.1 }
{
    let end = cursor.skip().skip_while(Class::InName).1;
    let kind = match keyword_of(cursor.bytes_up_to(end)) {
        Some(word) => TokenKind::Keyword(word),
        None => TokenKind::Name,
    };
    (Piece::Lexeme(kind), end)
}

/// A mark, or a character with which no token begins.
fn mark(cursor: Cursor<'_>, c: char) -> (Piece, Cursor<'_>)
    requires next { first (left cursor) ≡ c }
    requires some { left cursor ≢ [] }
    requires other { BeginsNoOther c }
    ensures { IsPieceAt cursor.entry result.0 result.1 }
{
    let one = cursor.skip();
    let two = one.skip();
    match mark_of(c, one.first(), two.first()) {
        Some((mark, 1)) => (Piece::Lexeme(TokenKind::Mark(mark)), one),
        Some((mark, 2)) => (Piece::Lexeme(TokenKind::Mark(mark)), two),
        Some((mark, _)) => (Piece::Lexeme(TokenKind::Mark(mark)), two.skip()),
        None => (Piece::Fault(LexReason::BadToken), one),
    }
}
