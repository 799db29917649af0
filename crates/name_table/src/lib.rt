//! Names with numbers, looked up by their bytes.
//!
//! A `Names` borrows the bytes of its names, so that neither a name nor a look-up is copied. A layer above may rely on it
//! that it is the list of what was put in, in order, and that `get` finds the number beside a name.
#![tactic(auto)]

mod key;
mod names;
mod seed;
#[cfg(test)]
mod tests;

pub use names::Names;
pub use seed::Seed;
