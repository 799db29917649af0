//! Why tokens are refused as a formula.
use std::alloc::{AllocError, AllocFailed};
use thiserror::Error;

/// Why there is no formula. Of the first three the first that holds is given.
#[derive(Debug, Drop, Error)]
pub enum FormulaError {
    /// A number, a text, a truth value, a sign of reckoning or comparing, or a call of a function.
    #[error("a kind of expression that is not supported")]
    Unsupported,
    /// Nothing is read of the tokens.
    #[error("the tokens are no formula")]
    BadFormula,
    /// The height is above 200.
    #[error("the formula is nested too deep")]
    TooDeep,
    #[error("out of memory")]
    Memory,
}

impl From<AllocError> for FormulaError {
    ghost use Rattle.std.specs.Prelude.{◌≡◌};
    ghost use Rattle.feature_tree.specs.declared.reader.error.FormulaError.{FormulaError};

    ghost from_gives = { λ _ e. e ≡ FormulaError.Memory };

    fn from(_: AllocError) -> FormulaError {
        FormulaError::Memory
    }
}

impl<T: Drop> From<AllocFailed<T>> for FormulaError {
    ghost use Rattle.std.specs.Prelude.{◌≡◌};
    ghost use Rattle.feature_tree.specs.declared.reader.error.FormulaError.{FormulaError};

    ghost from_gives = { λ _ e. e ≡ FormulaError.Memory };

    fn from(_: AllocFailed<T>) -> FormulaError {
        FormulaError::Memory
    }
}
