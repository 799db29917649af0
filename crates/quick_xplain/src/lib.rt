//! QuickXplain as a state that is resumed: it names the key whose verdict it wants, and goes on by the answer. Layers
//! above may rely on it that `want` and `conflict` are QuickXplain over the told answers as `pref_sets` defines it, that
//! `want` and `conflict` take no memory, and that a call that ends in want of memory leaves the state as it was.
#![tactic(auto)]

mod among;
mod explanation;
mod parts;

pub use explanation::QuickXplain;

#[cfg(test)]
mod tests;
