//! Tiers of the runs of a table: which runs are certified above which by chains of verdicts, the tier of each, and the
//! pairs of runs with no run between, by how many topics each wins.
#![tactic(auto)]

mod closing;
pub mod cover;
mod covers;
mod desk_rows;
mod direct;
pub mod laws;
mod order;
mod run_set;
mod tiers;

pub use cover::Cover;
pub use order::Order;
