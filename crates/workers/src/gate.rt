//! Holding threads back in a test.

/// Holds threads back at entries of a table. It tells nothing, so no answer depends on it: it serves to bring threads into
/// an order in a test. An implementation that never returns holds the run up for ever.
pub trait Gate: Sync {
    /// A thread comes to the entry: it is about to claim or to take it for the first time.
    fn before(&self, entry: u32);

    /// A worker has answered for the entry, and the answer stands in the table.
    fn answered(&self, entry: u32);
}

/// Holds nobody back.
#[derive(Clone, Copy, Debug, Drop, PartialEq, Eq)]
pub struct OpenGate;

impl Gate for OpenGate {
    fn before(&self, _entry: u32) {}

    fn answered(&self, _entry: u32) {}
}
