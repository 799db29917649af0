//! Why a model file is refused.
use std::alloc::AllocError;
use thiserror::Error;

/// What is wrong with a model file, at a line.
#[derive(Clone, Copy, Debug, PartialEq, Eq, Error)]
pub enum Reason {
    #[error("the bytes are not UTF-8")]
    NotUtf8,
    #[error("no token may stand here")]
    BadToken,
    #[error("a bracket is not closed")]
    OpenBracket,
    #[error("a comment is not closed")]
    OpenComment,
    /// It is indented no further than the last line, and no open line has its indentation; or it is the first line and is
    /// indented.
    #[error("the indentation fits no line above")]
    BadIndent,
    #[error("the line may not stand here")]
    Misplaced,
    /// A group line that is neither a group's word nor a range, or a group without a child.
    #[error("this is no group")]
    BadGroup,
    /// A feature line of another form, or the word `constraints` in its attributes without a list.
    #[error("this is no feature")]
    BadFeature,
    #[error("this is no formula")]
    BadFormula,
    /// A feature is deeper than 1,000, or a formula is higher than 200.
    #[error("too deep")]
    TooDeep,
    /// Only Boolean features and formulas over their names are read.
    #[error("not supported")]
    Unsupported,
    #[error("two features have this name")]
    Twice,
    #[error("a name in a formula is no feature's")]
    Unknown,
    #[error("there is no feature")]
    NoFeatures,
    /// There are more than 65,535 features.
    #[error("too many features")]
    TooMany,
}

/// Why there is no model.
#[derive(Debug, Drop, Error)]
pub enum ModelError {
    /// The line that is refused first, counted from 1, and why. A file without a root is refused at the line of `features`,
    /// or at 1.
    #[error("line {line}: {reason}")]
    Refused { line: u32, reason: Reason },
    #[error("out of memory")]
    Memory,
}

impl From<AllocError> for ModelError {
    ghost use Rattle.std.specs.Prelude.{◌≡◌};
    ghost use Rattle.uvl_reader.specs.declared.error.ModelError.{ModelError};

    ghost from_gives = { λ _ e. e ≡ ModelError.Memory };

    fn from(_: AllocError) -> ModelError {
        ModelError::Memory
    }
}
