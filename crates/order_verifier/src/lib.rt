//! A checker of certificates: it accepts one, or tells the first reason against it. The ends of a topic that the
//! evidence speaks of are those of `topic_ends`, which stands on no crate of a measure.
#![tactic(auto)]

mod bounds;
pub mod comparison;
pub mod completion;
pub mod documents;
pub mod failure;
pub mod laws;
mod listed;
mod name_order;
pub mod names;
pub mod rejected;
pub mod rows;
pub mod search;
pub mod verifier;
mod witnesses;

pub use comparison::Comparison;
pub use documents::Documents;
pub use failure::Failure;
pub use laws::{answers_are_one, numbers_are_of_lines, rejected_certificates_are_no_evidence};
pub use names::RunNumbers;
pub use rejected::Rejected;
pub use rows::{BoundRows, ListRows};
pub use topic_ends::{
    BoundsOnTopic, DeskMarks, Relevance, RelevantCounts, TopicEnds, TopicMarks, all_documents,
    bounds_of_desk,
};
pub use verifier::Verifier;
