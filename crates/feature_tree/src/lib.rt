//! Feature models as UVL has them: a tree of features in groups, with formulas across it.
//!
//! A `Model` is made of a `Tree`, which grows feature by feature in the order of a file, and of its constraints. Its one
//! question is `Model::is_product`; that of a `Formula` is `holds`. `formula_of` reads a formula from tokens. A layer above
//! may rely on it that every `Model` is well formed, that a set is a product exactly where `is_product` says so, that the
//! tests of `specs/Decided.antt`, which compute, agree with the definitions of product and consistency
//! (`product_is_decided`, `consistent_is_decided`), and that a list of tokens has one answer (`one_answer`), which
//! `specs/FormulaAnswer.antt` computes (`formula_answer_is_the_answer`). `Level`, `Parsed` and `Role` are public because the
//! grammar names them.
#![tactic(auto)]

mod feature;
mod formula;
mod group;
mod laws;
mod model;
mod numbered;
mod reader;
mod text;
mod tree;

pub use feature::{Feature, Features};
pub use formula::{Formula, Formulas, all_hold};
pub use group::{Group, GroupKind, Groups};
pub use laws::{
    consistent_is_decided, consistent_is_monotone, formula_answer_is_the_answer, one_answer,
    one_parse, product_is_decided, read_formulas_are_full, read_names_are_names,
    truth_rests_on_names,
};
pub use lists::{Numbers, Row};
pub use model::Model;
pub use numbered::numbered_keeps_truth;
pub use reader::{FormulaError, Level, Parsed, Role, formula_of};
pub use sqlite_items::Boxed;
pub use text::Text;
pub use tree::Tree;

#[cfg(test)]
mod tests;
