//! What a check answers, what an entry of the table of checks holds, and what a resumed part asks.
use crate::key::Key;

/// The answer to one consistency check.
#[derive(Clone, Copy, Debug, PartialEq, Eq)]
pub enum Verdict {
    /// A product meets the requirements.
    Sat,
    /// No product does.
    Unsat,
    /// The search spent its allowance.
    Limit,
}

/// What an entry of the table of checks holds.
#[derive(Clone, Copy, Debug, PartialEq, Eq)]
pub enum Cell {
    Empty,
    Posted,
    /// The worker with this number, counted from 1, searches.
    Running(u32),
    /// The main thread took it to search by itself.
    Mine,
    /// A worker gave it up without an answer.
    GivenUp,
    Answered(Verdict),
}

/// What a resumed part wants next: the verdict of a key, or nothing.
#[derive(Clone, Copy)]
pub enum Want<'a> {
    Ask(&'a Key),
    Done,
}
