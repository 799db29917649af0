//! What a call on the table found.
use req_keys::Verdict;

/// What became of a key that was to be posted.
#[derive(Clone, Copy, Debug, PartialEq, Eq)]
pub enum Posted {
    /// It stands at the entry with this number.
    At(u32),
    /// All entries are posted.
    Full,
}

/// What stood at an entry that the main thread wanted.
#[derive(Clone, Copy, Debug, PartialEq, Eq)]
pub enum Took {
    /// It was posted; the main thread has it from now on.
    Mine,
    /// A worker runs it.
    Running,
    Answered(Verdict),
    /// A worker gave it up without an answer.
    GivenUp,
}

/// What a worker drew.
#[derive(Clone, Copy, Debug, PartialEq, Eq)]
pub enum Drawn {
    /// The number of an entry, perhaps of one that isn't posted yet.
    Ticket(u32),
    /// There are no more entries.
    NoMore,
}

/// What became of a worker's claim.
#[derive(Clone, Copy, Debug, PartialEq, Eq)]
pub enum Claimed {
    /// The worker runs the entry.
    Taken,
    /// Nothing is posted there yet.
    NotYet,
    /// The main thread has it or doesn't want it any more; the ticket is given up.
    Gone,
}

/// What became of an answer.
#[derive(Clone, Copy, Debug, PartialEq, Eq)]
pub enum Left {
    Kept,
    /// The entry was cancelled, and the answer is lost.
    Late,
}

/// Why a worker has no answer.
#[derive(Clone, Copy, Debug, PartialEq, Eq)]
pub enum GaveUp {
    Memory,
    Stopped,
}
