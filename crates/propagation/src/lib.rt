//! Unit propagation by watched literals over a kept trail. `Propagator` keeps the assumed literals and the learned
//! clauses beside a problem, and knows whether these clash and, where they don't, the value of each variable in their
//! closure. Layers above may rely on its contract, which speaks of the closure and the clash alone, and on the laws:
//! without a clash no variable is given both values, and neither the order of clauses nor of assumed literals makes a
//! difference.
#![tactic(auto)]

mod building;
mod codes;
mod flat;
mod laws;
mod levels;
mod pairs;
mod placing;
mod propagating;
mod propagator;
mod roots;
mod sorting;
mod state;
mod trail;
mod visits;
mod watches;

pub use laws::{clauses_in_any_order, propagated_as_searched, values_are_of_the_closure};
pub use propagator::Propagator;
pub use roots::{assume_roots, with_roots};

#[cfg(test)]
mod tests;
