//! The measure `map` of trec_eval, average precision: the mean of the precisions at the ranks of the relevant documents.
#![tactic(auto)]

pub mod average_precision;
pub mod cases;
pub mod cells;
pub mod kept;
pub mod least;
pub mod listed;
pub mod numbers;
pub mod pair;
pub mod pushed;
pub mod uses;

pub use average_precision::AveragePrecision;
