//! What a seat knows. No value of these types is made: they are seen by contracts alone.
use clauses::Problem;
use req_keys::{Key, Verdict};
use std::collections::LinkedList;

/// How many loads, fetches and compare_exchanges a seat has made, and the place and the met word of the last two.
pub struct Trace {
    pub count: u64,
    pub place: u64,
    pub word: u64,
    pub place_before: u64,
    pub word_before: u64,
}

/// What the main seat knows of an entry.
pub struct KnownEntry {
    pub key: Key,
    pub cancelled: bool,
    pub mine: bool,
    pub seen: Option<Verdict>,
}

/// What the main seat knows.
pub struct MainView {
    pub problem: Problem,
    /// The number of entries.
    pub size: u64,
    /// The posted ones.
    pub entries: LinkedList<KnownEntry>,
    /// The words that are written of the next key.
    pub written: LinkedList<u64>,
    pub stopped: bool,
    /// How many worker seats were made.
    pub made: u64,
    pub left: u64,
    /// How many of those that left had met NoMore.
    pub left_done: u64,
    pub trace: Trace,
}

/// What a worker does with its ticket.
pub enum Stage {
    /// It has none.
    Idle,
    Holds(u64),
    /// It runs the entry, and has read these words of its key, each with its place.
    Runs(u64, LinkedList<(u64, u64)>),
}

/// What a worker's seat knows.
pub struct WorkerView {
    pub problem: Problem,
    pub size: u64,
    /// From 1 on.
    pub number: u64,
    pub stage: Stage,
    /// It met NoMore.
    pub done: bool,
    pub saw_stop: bool,
    /// It saw the mark on the entry that it runs.
    pub saw_mark: bool,
    pub trace: Trace,
}

pub enum View {
    Main(MainView),
    Worker(WorkerView),
    /// Of a worker's seat that left.
    Spent,
}
