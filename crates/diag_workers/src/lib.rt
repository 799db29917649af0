//! A job on a problem, from its plan to what is finished. `run_job_alone` makes every check itself, one after the other, by the
//! search with learning, and counts what is posted ahead of them. `run_job` does so with workers beside the main thread, which
//! make posted checks ahead: the turns of a round are served on a table (`serving`), which the round's workers share
//! (`workers`). A layer above may rely on it that both finish alike, whatever the workers did: the outcome and the checks are those
//! of the sequential run over the problem's verdicts, and the posted keys those of its turns.
#![tactic(auto)]

mod alone;
mod course;
mod options;
mod rounds;
mod running;
mod turns;

pub use alone::run_job_alone;
pub use options::Options;
pub use running::run_job;
pub use workers::{Gate, OpenGate};

#[cfg(test)]
mod tests;
