//! What a search answers.
ghost use Rattle.std.specs.Prelude.{◌≡◌};
ghost use Rattle.clauses.specs.Search.{verdict_of};
ghost use Rattle.solver.specs.Answers.{meaning};

use clauses::Derivation;
use lists::Row;
use req_keys::Verdict;
use std::alloc::{AllocError, AllocFailed};

/// A value for each variable, by its number.
pub type Assignment = Row<bool>;

/// How a search ends.
#[derive(Drop)]
pub enum Answer {
    /// This assignment makes the clauses and the roots of the key true.
    Sat(Assignment),
    /// None does: by this derivation.
    Unsat(Derivation),
    /// At a clash with a decision the last attempt had learned as many clauses as it may.
    Limit,
}

impl Answer {
    /// What the answer says of the requirements.
    pub fn verdict(&self) -> Verdict
        ensures { result ≡ verdict_of (meaning self.now) }
    {
        match self {
            Answer::Sat(_) => Verdict::Sat,
            Answer::Unsat(_) => Verdict::Unsat,
            Answer::Limit => Verdict::Limit,
        }
    }
}

/// Why a search has no answer.
#[derive(Clone, Copy, Debug, PartialEq, Eq)]
pub enum SolveError {
    /// It was told to stop.
    Stopped,
    /// There was no memory for it.
    Memory,
}

impl From<AllocError> for SolveError {
    ghost use Rattle.std.specs.Prelude.{◌≡◌};
    ghost use Rattle.solver.specs.declared.answer.SolveError.{SolveError};

    ghost from_gives = { λ _ e. e ≡ SolveError.Memory };

    fn from(_: AllocError) -> SolveError {
        SolveError::Memory
    }
}
