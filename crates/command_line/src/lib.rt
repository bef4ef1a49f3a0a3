//! The words of a command line after the command's own, read by what the command takes.
#![tactic(auto)]

mod allowed;
mod fault;
mod given;
pub mod laws;
mod parser;
mod row;

pub use fault::WordsFault;
pub use given::Given;
pub use row::Row;
