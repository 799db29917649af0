//! From a feature model and a configuration to a problem in clauses.
//!
//! `problem_of` makes the problem, and `needed` says how many variables it has. A layer above may rely on it that the problem
//! equals the definition in `specs/ClauseForm.antt`, that its assignments are the products that make every must and some
//! requirements true, one for one (`assignments_are_products`), and that requirements are consistent exactly where the problem
//! meets them (`consistent_is_met`).
#![tactic(auto)]

mod count;
mod error;
mod gates;
mod groups;
mod laws;
mod problem;

pub use count::needed;
pub use error::BuildError;
pub use laws::{assignments_are_products, consistent_is_met};
pub use problem::problem_of;

#[cfg(test)]
mod tests;
