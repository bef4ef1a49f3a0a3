//! What the files of judgements and of runs have in common: rows of a topic, a document and a value, the faults of lines and of files,
//! and names that stand in a file.
#![tactic(auto)]

mod distinct_rows;
mod fault;
mod fed;
mod grouped_rows;
mod growing_rows;
mod keys;
mod laws;
mod limits;
mod name_index;
mod pieces;
mod value;
mod valued_rows;

pub use distinct_rows::DistinctRows;
pub use fault::{FileFault, LineFault};
pub use fed::Fed;
pub use grouped_rows::GroupedRows;
pub use growing_rows::GrowingRows;
pub use laws::{a_cut_changes_no_line, a_cut_changes_no_row};
pub use limits::MOST_NAME_BYTES;
pub use name_index::NameIndex;
pub use pieces::{LineReader, Pieces};
pub use value::RowValue;
pub use valued_rows::ValuedRows;
