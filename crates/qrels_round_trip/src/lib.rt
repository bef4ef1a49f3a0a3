//! The judgements in force, printed as a judgements file and read again: laws over definitions.
#![tactic(auto)]

mod laws;

pub use laws::{judgements_are_kept, limits_alone_refuse, runs_are_kept, text_says_judgements};
