//! Counting gates. `count_table` makes the variables and clauses that say how many of some literals are true. Layers
//! above may rely on the definition of the table in `specs/`, which computes, and on the laws: its literal j is true
//! exactly where at least j of the children are, and the values of its variables follow from the others, which they
//! leave free.
#![tactic(auto)]

mod laws;
mod table;

pub use laws::{literal_says_at_least, one_extension, table_is_about_its_variables};
pub use table::count_table;

#[cfg(test)]
mod tests;
