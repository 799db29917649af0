//! Generated product lines, as large as somebody wants them: the texts of a model and of a configuration, drawn from a
//! seed. `generate` is the one call. Layers above may rely on the texts being those of the definition, which computes,
//! and on the set of all features being a product of every generated model (`all_features_are_a_product`), whose
//! features are numbered in order of appearance (`features_appear`).
#![tactic(auto)]

mod draws;
mod generating;
mod laws;
mod lines;
#[cfg(test)]
mod tests;
mod tree;

pub use generating::generate;
pub use laws::{all_features_are_a_product, children_are_enough, features_appear};
