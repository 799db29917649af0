//! Certificates: what a job found out about a configuration of a model, with products and derivations that show it, as lines.
//! What is said of a file is a definition that computes (`specs/Judging.antt`), and so is the text of a certificate
//! (`specs/Text.antt`). The main type is `Judgement`: `verify` gives it for a file, and `write_certificate` writes the text. A
//! layer above may rely on it that what is accepted is so (`accepted_is_so`), whatever the bytes are, and that the text of a
//! sequential run's outcome is accepted (`written_is_accepted`).
#![tactic(auto)]

mod accepted;
mod cutting;
mod derivations;
mod explained;
mod judgement;
mod keys;
mod laws;
mod line_texts;
mod lines;
mod numbers;
mod parts;
mod products;
mod saying;
mod searched;
mod verifying;
mod writing;

pub use accepted::written_is_accepted;
pub use judgement::{Judgement, Shown, Why};
pub use laws::accepted_is_so;
pub use verifying::verify;
pub use writing::write_certificate;

#[cfg(test)]
mod tests;
