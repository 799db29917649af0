//! Sets of requirement positions, and the words that every layer above speaks in. `Key` is the set: contracts see
//! the number n of requirements and the members, an ascending list within 1..=n, however a key is kept. Layers above
//! may rely on keys that are equal exactly where n and members are, on `Ord` as the order of diagnoses, and on the
//! reading calls taking no memory.
#![tactic(auto)]

mod key;
mod key_lists;
mod laws;
mod rows;
#[cfg(test)]
mod tests;
mod verdict;

pub use key::Key;
pub use key_lists::Keys;
pub use laws::{
    disjointness_is_of_members, equal_keys_are_one, membership_is_containing,
    order_is_of_diagnoses, subset_is_of_members, words_and_keys_are_inverse,
};
pub use lists::Numbers;
pub use verdict::{Cell, Verdict, Want};
