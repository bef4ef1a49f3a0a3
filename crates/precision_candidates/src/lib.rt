//! A run's candidates under average precision: which one is chosen on each side, the sums of the precisions in them,
//! and in which of the two each document is true.
#![tactic(auto)]

pub mod by_rank;
pub mod candidate;
pub mod choice;
pub mod classes;
pub mod crossing;
pub mod pruned;
pub mod runs;
pub mod sums;
pub mod table;
pub mod walk;
