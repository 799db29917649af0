//! Checking a derivation by reverse unit propagation. `checks` says whether each of some lines follows from a problem's
//! clauses, the roots of a key and the lines before it, and whether the last is the empty clause; else it names the
//! first that is wrong. `Checker` does the same for lines that come one by one, and is kept from one derivation to the next.
//! Layers above may rely on it that Yes comes exactly for derivations, that then no values make the clauses and the roots true,
//! and that a `Checker` accepts exactly the lines that follow.
#![tactic(auto)]

mod checked;
mod checker;
mod checking;
mod negations;

pub use checked::Checked;
pub use checker::Checker;
pub use checking::checks;

#[cfg(test)]
mod tests;
