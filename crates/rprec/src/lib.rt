//! The measure `Rprec` of trec_eval: the relevant documents among the first R of a ranking, out of
//! R, where R is the number of relevant documents of the topic.
#![tactic(auto)]

pub mod blocks;
pub mod both;
pub mod extremes;
pub mod greedy;
pub mod known;
mod lists;
pub mod pair;
mod pair_lists;
pub mod prefixes;
pub mod room;
pub mod rprec;
pub mod search;
pub mod shared;
pub mod short;
pub mod spans;
pub mod sums;
pub mod values;

pub use rprec::Rprec;
