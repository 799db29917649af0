//! The words of the command line: `read_words` gives the `Command` that they say, by a grammar over all lists of words, and
//! `Status` says how a run ended. Layers above may rely on it that words say at most one command, that `read_words` finds it
//! exactly where they do, and on the exit code of each status. Nothing here takes memory.
#![tactic(auto)]

mod command;
mod laws;
mod number;
mod options;
mod status;

pub use command::{Command, What, read_words};
pub use laws::words_say_one_request;
pub use status::Status;

#[cfg(test)]
mod tests;
