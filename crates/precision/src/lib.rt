//! The measure `P_k` of trec_eval: the relevant documents among the first k of a ranking, out of k.
#![tactic(auto)]

mod own;
pub mod precision;

pub use precision::Precision;
