//! Sessions of judging: a list of changes by several callers, each of whom can correct, undo and redo their own;
//! and the lines of a session: what each asks, if it is one of the lines that a session knows.
#![tactic(auto)]

mod answers;
mod change;
mod counts;
mod force;
mod hearing;
pub mod laws;
mod line_laws;
mod looking;
mod marking;
mod session;
mod steps;
mod tally;
mod types;

pub use answers::{Changed, JudgeFault, NothingToRedo, NothingToUndo};
pub use hearing::hear;
pub use line_laws::{
    bad_lines_are_of_no_form, blank_lines_are_passed_over, long_lines_are_too_long,
    requests_are_of_their_form, requests_are_within_limits,
};
pub use session::Session;
pub use types::{Heard, Request};
