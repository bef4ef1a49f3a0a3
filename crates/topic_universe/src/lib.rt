//! The rankings of a run in the order of trec_eval, and the universe of a topic: the names of the documents that the
//! qrels list and the runs retrieve, each once, in ascending order. A run that is ranked gives back its scores.
#![tactic(auto)]

mod entry;
mod names;
mod numbered;
mod ranked;
mod ranked_run;
mod ranked_topic;
mod ranked_topics;
mod scored_rows;
mod universe;

pub use names::{ascending, in_blocks, places};
pub use numbered::Numbered;
pub use ranked::{RankedNames, order_is_one, ranking};
pub use ranked_run::RankedRun;
pub use universe::{Universe, universe_of};
