//! The desk of the rows of files.
#![tactic(auto)]

mod book;
mod build;
mod fault;
mod laws;
mod limits;
mod rankings;
mod runs;

pub use build::{build_desk, desk_of_ranked};
pub use fault::DeskFault;
pub use laws::{desk_is_one, rows_add_up};
pub use limits::MOST_CELLS;
pub use runs::repeated_run;
