//! The table of all pairs of runs, and the certificates of its pairs, proved once for every measure.
#![tactic(auto)]

mod certificates;
pub mod evidence;
pub mod evidence_laws;
mod kept;
pub mod laws;
mod made;
mod marked_topic;
mod numbers;
pub mod settled;
pub mod smaller_depths;
mod sums;
pub mod table;
pub mod table_sums;
mod topics;
pub mod two_runs;
mod witness;

pub use evidence::EvidenceFault;
pub use made::{sums_on, table_on};
pub use table::Table;
pub use table_sums::TableSums;
pub use two_runs::TwoRuns;
