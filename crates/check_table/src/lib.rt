//! The table of checks that the main thread and the workers share: entries that the main thread posts, tickets that
//! workers draw for them, and answers. `CheckTable` is the table, `MainSeat` and `WorkerSeat` are what a thread acts
//! with; each call is one or a few operations on single words and waits for nobody. Layers above may rely on the rule,
//! which holds between any two operations, whoever makes them: an answer that stands in the table is the verdict of its
//! entry's key, no two seats run one entry, and each operation is the event on the board that it is named after.
#![tactic(auto)]

mod found;
mod laws;
mod rule;
mod seats;
mod sending;
mod table;
#[cfg(test)]
mod tests;
mod view;

pub use found::{Claimed, Drawn, GaveUp, Left, Posted, Took};
pub use laws::{
    answers_are_verdicts, looks_leave_the_rest, main_steps_are_events, mine_is_unclaimed,
    new_table_is_a_fresh_board, no_two_seats_run_one_entry, seats_come_and_leave,
    seen_answers_stay, worker_steps_are_events,
};
pub use seats::{MainSeat, WorkerSeat};
pub use sending::table_and_seats_cross_threads;
pub use table::CheckTable;
