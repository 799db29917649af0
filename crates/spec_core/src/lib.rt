//! The pure core of a job that threads share: a world of a plan, its told pairs and a board, and the events on it. What an event
//! does stands in `specs/World.antt`, as functions that compute; `World` makes the events, and `replay` a list of them. Layers
//! above may rely on it that a call makes exactly what the functions say, and on the law that over all lists of events each
//! answered cell holds its key's verdict, and the told pairs begin what the sequential run needs.
#![tactic(auto)]

mod board_events;
mod event;
mod laws;
mod replaying;
#[cfg(test)]
mod tests;
mod world;

pub use event::{Event, Events};
pub use laws::{rounds_begin_anew, worlds_go_along_the_sequential_run};
pub use replaying::replay;
pub use world::World;
