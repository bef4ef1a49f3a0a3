//! The measure `recall_k` of trec_eval: the relevant documents among the first k of a ranking, out of
//! all relevant documents of the topic.
#![tactic(auto)]

mod own;
pub mod recall;

pub use recall::Recall;
