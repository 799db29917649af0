//! Why there is no problem.
use std::alloc::AllocError;
use thiserror::Error;

/// Why a model and a configuration give no problem.
#[derive(Debug, Drop, Error)]
pub enum BuildError {
    /// There would be so many variables, more than 1,000,000.
    #[error("{needed} variables are needed, and at most 1000000 are allowed")]
    TooLarge { needed: u64 },
    #[error("out of memory")]
    Memory,
}

impl From<AllocError> for BuildError {
    ghost use Rattle.std.specs.Prelude.{◌≡◌};
    ghost use Rattle.clause_form.specs.declared.error.BuildError.{BuildError};

    ghost from_gives = { λ _ e. e ≡ BuildError.Memory };

    fn from(_: AllocError) -> BuildError {
        BuildError::Memory
    }
}
