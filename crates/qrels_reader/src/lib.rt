//! The rows of a qrels file, whole or in pieces.
#![tactic(auto)]

mod limits;
mod line;
mod qrels;
mod read;
mod reader;
mod row_reader;

pub use file_rows::{FileFault, LineFault, MOST_NAME_BYTES};
pub use limits::{GREATEST_GRADE, LEAST_GRADE, MOST_QRELS_ROWS, MOST_TOPICS};
pub use qrels::Qrels;
pub use read::read_qrels;
pub use reader::QrelsReader;
