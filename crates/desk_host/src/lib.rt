//! The desk over the real files and streams.
#![tactic(auto)]

mod host;

pub use host::call;
