//! Model files: `read_model` gives the feature model that the bytes of a UVL file say, or the first line that is refused and
//! why.
//!
//! A layer above may rely on it that `read_model` equals the definition in `specs/ModelReading.antt`, want of memory aside, and
//! that each model is well formed, as `feature_tree::Model` is. `Header`, `LineKind` and `Section` are public because the
//! definition names them.
#![tactic(auto)]

mod attributes;
mod constraints;
mod draft;
mod error;
mod header;
mod kind;
mod laws;
mod pending;
mod reader;
mod shape;
mod stack;
mod stated;
#[cfg(test)]
mod tests;

pub use error::{ModelError, Reason};
pub use header::Header;
pub use kind::{LineKind, Section};
pub use laws::lines_above_are_the_latest;
pub use reader::read_model;
