//! The tree of hitting sets, which lists minimal diagnoses. As a definition over a table of answers it stands in
//! `specs/Tree.antt`; `HsTree` is that tree as a state that names the key whose verdict it wants, and goes on by the answer.
//! Layers above may rely on it that `want` and `found` are the tree over the told answers, that both take no memory, that a
//! call that ends in want of memory leaves the state as it was, and on the laws: a set that is asked has no answer in the
//! table (`tree_asks_new_sets`), and what is found in the end is the listing of the minimal diagnoses
//! (`tree_lists_minimal_diagnoses`).
#![tactic(auto)]

mod found;
mod hitting;
mod laws;
mod levels;
mod sets;
mod state;
mod told;

pub use hitting::HsTree;
pub use laws::{listing_is_unique, tree_asks_new_sets, tree_lists_minimal_diagnoses};

#[cfg(test)]
mod tests;
