//! The report: what a job found out about a configuration of a model, as text. `report_of` equals the definition in
//! `specs/Report.antt`; a layer above may rely on that.
#![tactic(auto)]

mod counts;
mod lines;
mod members;
mod report;

pub use counts::Counts;
pub use report::report_of;

#[cfg(test)]
mod tests;
