//! Laws of the measures: their least cases, the ends of rank-biased and of average precision, weights, and what more
//! judging leaves settled.
#![tactic(auto)]

pub mod average;
pub mod laws;
pub mod least_differences;
pub mod settled;
