//! FastDiag as a state that is resumed: it names the key whose verdict it wants, and goes on by the answer. Layers above
//! may rely on it that `want` and `kept` are FastDiag over the told answers as `pref_sets` defines it, that `want` and
//! `kept` take no memory, and that a call that ends in want of memory leaves the state as it was.
#![tactic(auto)]

mod diagnosis;
mod parts;

pub use diagnosis::FastDiag;

#[cfg(test)]
mod tests;
