//! What a check of lines answers.

/// Whether lines are a derivation.
#[derive(Clone, Copy, Debug, PartialEq, Eq)]
pub enum Checked {
    /// They are: each follows, and the last is the empty clause.
    Yes,
    /// The line with this number, from 0, is the first that doesn't follow.
    NoAt(u32),
    /// Each follows, but the last isn't the empty clause, or there is none.
    NoEnd,
}
