//! The bundle of a table: the certificates of all pairs of runs whose verdict is not close, in one, proved once for every
//! measure. Its documents are those alone that some list names. The length of its text is known before it is made.
#![tactic(auto)]

mod bundle;
mod claim_count;
mod claims;
pub mod laws;
mod length;
mod lists;
mod order;
mod pairs;
mod picked;
mod places;
mod standing_table;
mod topic_length;

pub use bundle::bundle_of;
pub use length::table_bundle_length;
