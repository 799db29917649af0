//! The job: its parts run one after the other over the pairs of key and verdict that were told (`specs/Job.antt`), and the
//! sequential run, which is told the verdict of each key that is asked (`specs/Sequential.antt`). `Run` is the job as a state.
//! Layers above may rely on it that `want` is the job over all told pairs and takes no memory, that no told key is asked
//! again, that a call that ends in want of memory leaves the run as it was, and on the laws: the sequential run ends and is
//! what a loop over `want` and `tell` tells (`run_goes_on`), and over right verdicts the outcome is right
//! (`outcome_is_right`).
#![tactic(auto)]

mod asker;
mod beside;
mod going;
mod job;
mod laws;
mod recursions;
mod run;
mod stage;
#[cfg(test)]
mod tests;
mod used;

pub use asker::Asker;
pub use job::{JobPlan, Outcome, Part, Parts};
pub use laws::{
    job_asks_new_keys, outcome_is_right, run_goes_on, sequential_run_ends,
    verdicts_of_a_problem_are_true,
};
pub use run::{Finished, Run};
pub use used::Used;
