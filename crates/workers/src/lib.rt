//! A worker of a check table: it draws tickets, searches for the verdicts of their entries' keys and answers them.
//! `worker` is what a thread runs, and `Gate` may hold it back in a test. `Patience` is how a thread waits for another.
//! Layers above may rely on it that a worker ends with a seat that runs nothing, and that the seat met the end of the
//! entries and has no ticket, or saw the stop. That what it answers is right is the table's condition.
#![tactic(auto)]

mod gate;
mod searching;
mod stopping;
#[cfg(test)]
mod tests;
mod waiting;
mod working;

pub use gate::{Gate, OpenGate};
pub use stopping::SeatStop;
pub use waiting::Patience;
pub use working::worker;
