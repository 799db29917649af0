//! Requirements with their tiers.
use crate::config::Requirement;

/// A requirement in a tier. It is public because the definition names it.
#[derive(Debug, Drop)]
pub struct Placed {
    /// Of two tiers the lower is the more important.
    pub tier: u32,
    pub requirement: Requirement,
}
