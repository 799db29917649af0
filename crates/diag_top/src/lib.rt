//! The commands, each from the words of its command line to the bytes that it writes and the status that it ends
//! with. The main call is `run`; its contract is what the whole program promises, if it returns. `run_alone` does the same on one
//! thread, and always returns. What is answered is `answer` in `specs/Answer.antt`, and how a run may end `IsRun` in `specs/Run.antt`.
#![tactic(auto)]

mod advice;
mod files;
mod generated;
mod jobs;
mod laws;
mod refusal;
mod reply;
mod running;
mod verification;
mod write;

pub use command_line::{Command, Status, What, read_words};
pub use diag_workers::{Gate, OpenGate};
pub use laws::{advice_is_right, answers_are_no_faults, limits_are_needed, workers_change_nothing};
pub use running::{run, run_alone};

#[cfg(test)]
mod tests;
