//! The certificate of all pairs of runs of a table as one text, by the name of a measure, or how long it would be where
//! that is too long.
#![tactic(auto)]

mod report;

pub use report::{Bundled, bundle_report};
