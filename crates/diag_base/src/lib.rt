//! The program's outside, as seen by everything above it: a shelf that files are fetched from and a sink that
//! text is put into. Both are traits, so that the layers above are proved over any shelf and any sink; a fault
//! is reported only where the shelf or the sink has counted one more. The main types are `Shelf` and `Sink`,
//! with `MemShelf` and `MemSink` in memory for tests, and the list `Bytes`.
#![tactic(auto)]

mod bytes;
mod mem_shelf;
mod mem_sink;
mod shelf;
mod sink;

pub use bytes::Bytes;
pub use mem_shelf::MemShelf;
pub use mem_sink::MemSink;
pub use shelf::{FetchError, Fetched, Shelf};
pub use sink::{PutFailed, Sink};

#[cfg(test)]
mod tests;
