//! Every measure of the desk, by its name.
#![tactic(auto)]

pub mod any;
pub mod common;
pub mod members;

pub use any::AnyMeasure;
pub use common::Common;
