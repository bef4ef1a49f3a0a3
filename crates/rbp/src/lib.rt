//! The measure `rbp_p`, rank-biased precision (Moffat and Zobel 2008): each rank weighs as much as the
//! one before it times the persistence p.
#![tactic(auto)]

pub mod by_ranks;
pub mod corrections;
mod lists;
pub mod rbp;
pub mod weights;

pub use rbp::Rbp;
