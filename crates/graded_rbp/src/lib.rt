//! Rank-biased precision by grades: the table of its numbers, and its laws.
#![tactic(auto)]

pub mod laws;
mod level;
mod sums;
pub mod table;

pub use table::GradedTable;
