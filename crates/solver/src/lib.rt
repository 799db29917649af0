//! The search with learning. `solve` decides whether a problem's clauses and the roots of a key can be met, by the search
//! that `clauses` defines. Layers above may rely on it that the answer is that definition's, so Sat comes with an
//! assignment, Unsat with a derivation, and Limit exactly where each attempt needs one more learned clause than its
//! allowance; and that a search is stopped only where its `Stop` said so.
#![tactic(auto)]

mod answer;
mod search;
mod solving;
mod stop;
mod trial;

pub use answer::{Answer, Assignment, SolveError};
pub use solving::{Searcher, solve};
pub use stop::{NoStop, Stop};

#[cfg(test)]
mod tests;
