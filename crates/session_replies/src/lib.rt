//! What a session replies to its lines.
#![tactic(auto)]

mod changing;
mod comparing;
mod judgement;
pub mod laws;
mod replies;
mod state;
mod telling;

pub use replies::{Reply, reply_to};
pub use state::{Given, Judging};
