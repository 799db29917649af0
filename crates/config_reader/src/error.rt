//! Why a configuration is refused.
use std::alloc::AllocError;
use thiserror::Error;

/// What is wrong with a file, at a line.
#[derive(Clone, Copy, Debug, PartialEq, Eq, Error)]
pub enum Reason {
    #[error("the bytes are not UTF-8")]
    NotUtf8,
    #[error("no token stands here")]
    BadToken,
    #[error("a bracket is not closed")]
    OpenBracket,
    #[error("a comment is not closed")]
    OpenComment,
    /// The 4,097th requirement, or the 4,097th must.
    #[error("too many requirements or musts")]
    TooMany,
    #[error("a kind of expression that is not supported")]
    Unsupported,
    #[error("the tokens are no formula")]
    BadFormula,
    #[error("the formula is nested too deep")]
    TooDeep,
    /// A name that no feature has.
    #[error("no feature has this name")]
    Unknown,
    /// A tier line with a further token, or with a number that isn't 1 to 4 digits of which the first isn't 0.
    #[error("this is no tier")]
    BadTier,
}

/// Why there is no configuration.
#[derive(Debug, Drop, Error)]
pub enum ConfigError {
    /// The fault of the text, or else of the first refused line, with its line, counted from 1.
    #[error("line {line}: {reason}")]
    Refused { line: u32, reason: Reason },
    #[error("out of memory")]
    Memory,
}

impl From<AllocError> for ConfigError {
    ghost use Rattle.std.specs.Prelude.{◌≡◌};
    ghost use Rattle.config_reader.specs.declared.error.ConfigError.{ConfigError};

    ghost from_gives = { λ _ e. e ≡ ConfigError.Memory };

    fn from(_: AllocError) -> ConfigError {
        ConfigError::Memory
    }
}
