//! Configuration files, of both versions: `read_config` gives what a file's bytes state over a model, or why it is
//! refused.
//!
//! A `Config` has requirements, the most important first, and musts, which are not up to choice. Each has its text, and a
//! formula whose names are numbers of features. A layer above may rely on it that `read_config` equals the definition in
//! `specs/Reading.antt`, want of memory aside. `Kind`, `Placed` and `Version` are public because the definition names them.
#![tactic(auto)]

mod config;
mod copies;
mod draft;
mod error;
mod formula;
mod kind;
mod laws;
mod names;
mod placed;
mod reader;
mod slices;
#[cfg(test)]
mod tests;
mod texts;
mod tier;

pub use config::{Config, Requirement, Requirements};
pub use error::{ConfigError, Reason};
pub use kind::{Kind, Version};
pub use laws::readings_are_stated;
pub use placed::Placed;
pub use reader::read_config;
