//! Runs: their rows on the topics of the qrels, with exact scores, read whole or in pieces.
#![tactic(auto)]

mod gathered;
mod limits;
mod line;
mod read;
mod reader;
mod row_reader;
mod run_rows;
mod used;

pub use limits::{MOST_RANKS, MOST_RUN_ROWS};
pub use read::read_run;
pub use reader::RunReader;
pub use run_rows::RunRows;
pub use used::Used;
