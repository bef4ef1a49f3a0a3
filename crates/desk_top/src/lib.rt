//! The desk's top call.
#![tactic(auto)]

mod demo;
mod graded;
mod laws;
mod outcome;
mod session;
mod sheets;
mod status;
mod tell;
mod tools;
mod top;
mod verify;
mod work;

pub use status::Status;
pub use tell::{tell_memory, tell_outside};
pub use top::run_desk;
