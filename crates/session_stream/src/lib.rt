//! A session over an input and an output: each line gets its reply before the next read.
#![tactic(auto)]

mod stream;

pub use stream::{Ended, Fault, LONGEST_INPUT, Next, hold_session};
