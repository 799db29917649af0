//! What is said of a certificate.

use req_keys::Key;

/// What a certificate shows.
#[derive(Drop)]
pub enum Shown {
    /// One product makes every must and every requirement true.
    Consistent,
    /// No product makes every must true.
    Background,
    /// The preferred relaxation, and the preferred conflict of all requirements.
    Explained { kept: Key, conflict: Key },
}

/// Why a line is refused.
#[derive(Clone, Copy, Debug, PartialEq, Eq)]
pub enum Why {
    /// No line begins a certificate.
    NoCertificate,
    /// It isn't what stands at this place.
    BadLine,
    /// The features aren't a product, or a must or a requirement is false in them.
    NotProduct,
    /// It doesn't follow from the lines before it.
    NotConsequence,
    /// A derivation breaks off.
    NoEnd,
}

/// Whether a certificate is accepted.
#[derive(Drop)]
pub enum Judgement {
    /// It shows this.
    Yes(Shown),
    /// This line is the first that is refused, counted from 1. It is one past the last where the file ends too early.
    No { line: u32, why: Why },
}
