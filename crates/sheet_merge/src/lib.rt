//! Sheets of assessors: what each says of each document, and their merge.
#![tactic(auto)]

mod entry_reader;
mod fault;
mod find;
mod kept;
mod key;
mod laws;
mod limits;
mod line;
mod merge;
mod packed;
mod pair;
mod placing;
mod read;
mod reader;
mod row;
mod rows;
mod sheet;
mod sorted;
mod table;
mod text;
mod written;

pub use fault::{MergeFault, SheetFault, SheetLineFault};
pub use laws::{
    greater_is_one, map_is_one, maps_are_computed, merging_is_of_all, merging_is_one,
    order_of_lines_is_free, order_of_sheets_is_free, text_says_the_sheet,
};
pub use limits::{ENTRY_LIMIT, GREATEST_GRADE, GREATEST_STAMP, LEAST_GRADE};
pub use read::read_sheet;
pub use reader::SheetReader;
pub use sheet::{NotPlaced, Sheet};
