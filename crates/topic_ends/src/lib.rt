//! The ends of a topic: the lower end of the least difference of two rankings over all completions of its marks, and
//! the upper end of their difference in one, under each measure. They are computed anew here, by counts of documents and
//! ranks, on no crate of a measure.
#![tactic(auto)]

pub mod average;
pub mod biased;
pub mod candidate;
pub mod completion;
pub mod counted;
pub mod counts;
pub mod difference;
pub mod ends;
pub mod estimate;
pub mod kind;
pub mod own;
pub mod pair;
pub mod part_sum;
pub mod precision;
pub mod rank_powers;
pub mod ranked;
pub mod ranks;
pub mod recall;
pub mod reciprocal;
pub mod relevance;
pub mod rprecision;
pub mod run_bound;
pub mod walk;

pub use counted::{DeskMarks, TopicMarks};
pub use counts::{RelevantCounts, all_documents};
pub use ends::TopicEnds;
pub use ranked::{BoundsOnTopic, bounds_of_desk};
pub use relevance::Relevance;
