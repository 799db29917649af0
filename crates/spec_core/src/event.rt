//! What may happen to a world.
use lists::Row;
use req_keys::Key;

/// An event. The numbers of `Draw`, `Claim`, `Answer`, `GiveUp` and `Leave` are workers, counted from 1, those of `Cancel`, `Take`
/// and `Use` entries, counted from 0.
#[derive(Drop)]
pub enum Event {
    /// The main thread posts the key.
    Post(Key),
    /// The worker takes the next ticket.
    Draw(u32),
    /// The worker tries to run the entry of its ticket.
    Claim(u32),
    /// The worker answers the entry that it runs.
    Answer(u32),
    /// The worker ends without an answer.
    GiveUp(u32),
    /// The main thread no longer wants the entry.
    Cancel(u32),
    /// The main thread takes the entry, to search by itself.
    Take(u32),
    /// The job is told what the entry's worker answered.
    Use(u32),
    /// The job is told what the main thread found out by itself.
    Solve,
    Stop,
    /// The worker leaves a stopped board.
    Leave(u32),
    /// The next round begins.
    Round,
}

/// A list of events.
pub type Events = Row<Event>;
