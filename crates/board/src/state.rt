//! What stands on a board.
use lists::Row;
use req_keys::{Cell, Key};

/// An entry: a set of requirements that somebody is to check.
#[derive(Drop)]
pub struct Entry {
    pub key: Key,
    pub cell: Cell,
    /// Set where the main thread no longer wants the answer.
    pub cancelled: bool,
}

/// Entries that the main thread posts and workers answer.
#[derive(Drop)]
pub struct Board {
    /// In order of their posting; a number of an entry is its place, from 0 on.
    pub entries: Row<Entry>,
    /// The next ticket.
    pub cursor: u32,
    /// The ticket of each worker, the number of the entry that it works on. Workers are numbered from 1: that of worker 1
    /// comes first.
    pub tickets: Row<Option<u32>>,
    pub stopped: bool,
    /// How many entries may be posted, and how many tickets may be drawn.
    pub size: u32,
}
