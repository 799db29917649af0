//! Counts for the report.

/// How many checks were made, over all jobs, how many were predicted, and how many of these in vain.
#[derive(Clone, Copy, Debug)]
pub struct Counts {
    /// Each is a sum of two counts of 64 bits.
    pub checks: u128,
    pub predicted: u128,
    pub wasted: u128,
}
