//! How a job is run.

/// How a job is run.
#[derive(Clone, Copy, Debug, PartialEq, Eq)]
pub struct Options {
    /// How many threads beside this one make checks, at most 64.
    pub workers: u32,
    /// How many answers are guessed ahead, at most 6.
    pub ahead: u8,
    /// How many checks may be offered in a round, 1 to 4,096.
    pub entries: u32,
}
