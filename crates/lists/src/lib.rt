//! Lists, at the bottom of everything: `Row` is a list over one `Vec`, and contracts see it as the list of its items.
//! Most lists of the layers above are names for a `Row`. Beside it stand the words on lists that several layers'
//! definitions use (`specs/`) and the lemmas on membership, repeated items and ranges that several layers' proofs use
//! (`proofs/`). Layers above may rely on reading calls and `new` taking no memory, and on a list being as it was after
//! want of memory.
#![tactic(auto)]

mod row;
#[cfg(test)]
mod tests;

pub use row::{Numbers, Row};
