//! The board of a job that is shared by threads: entries with a key, a cell and a cancel mark, a cursor, the workers'
//! tickets, and whether it is stopped. `Board` is plain data; what each event does to it stands in `specs/Events.antt`,
//! as functions that compute. Layers above may rely on these functions: an event answers the next board, or nothing
//! where it isn't enabled, and nothing else changes a board.
#![tactic(auto)]

mod state;

pub use state::{Board, Entry};
