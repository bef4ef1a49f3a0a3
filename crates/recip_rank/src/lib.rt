//! The measure `recip_rank` of trec_eval: one over the rank of the first relevant document.
#![tactic(auto)]

pub mod firsts;
pub mod recip_rank;

pub use recip_rank::RecipRank;
