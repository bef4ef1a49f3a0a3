//! The printed texts of the desk, those of a table of pairs by the name of a measure among them, and that what is
//! printed claims nothing false: tables, lines of pairs, certificates, tiers of runs, and the other answers and replies.
#![tactic(auto)]

pub mod claims;
mod close;
mod graded;
mod grading;
mod judging;
mod means;
mod qrels;
mod reports;
mod table;
mod tiers;

pub use close::close_line;
pub use graded::graded_text;
pub use grading::Grading;
pub use judging::{changed_line, next_line_text, pool_line};
pub use qrels::qrels_text;
pub use reports::{
    Certified, certified_report, kept_next_report, next_report, pair_report, table_report,
};
pub use table::{pair_line, table_text};
pub use tiers::{tiers_report, tiers_text};
