//! Why a text is refused.
use std::alloc::AllocError;
use thiserror::Error;

/// What is wrong with a text, at a line.
#[derive(Clone, Copy, Debug, PartialEq, Eq, Error)]
pub enum LexReason {
    #[error("the bytes are not UTF-8")]
    NotUtf8,
    /// A character that begins no token, a quote without its end on its line, or a bracket that
    /// does not close the innermost open one.
    #[error("no token stands here")]
    BadToken,
    /// The text ends inside a bracket, whose line is given.
    #[error("a bracket is not closed")]
    OpenBracket,
    #[error("a comment is not closed")]
    OpenComment,
}

/// Why there are no lines.
#[derive(Debug, Drop, Error)]
pub enum LexError {
    /// The first fault of the text, with its physical line, counted from 1.
    #[error("line {line}: {reason}")]
    Refused { line: u32, reason: LexReason },
    #[error("out of memory")]
    Memory,
}

impl From<AllocError> for LexError {
    ghost use Rattle.std.specs.Prelude.{◌≡◌};
    ghost use Rattle.uvl_lex.specs.declared.error.LexError.{LexError};

    ghost from_gives = { λ _ e. e ≡ LexError.Memory };

    fn from(_: AllocError) -> LexError {
        LexError::Memory
    }
}
