//! The demo: texts that a generator of numbers makes of a seed, the desk that is read from them as from files,
//! and its summary.
#![tactic(auto)]

mod demo;
mod draws;
mod laws;
mod lines;
mod numbers;
mod qrels;
mod run;
mod sizes;
mod summary;
mod words;

pub use demo::{DemoDesk, demo_desk};
pub use draws::Generator;
pub use laws::texts_are_read;
pub use qrels::qrels_text;
pub use run::run_text;
pub use sizes::{DOCUMENTS, PLACES, RUNS, TOPICS};
pub use summary::summary_text;
