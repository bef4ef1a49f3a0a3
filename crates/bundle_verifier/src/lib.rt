//! A checker of bundles: it accepts one, or tells the first reason against it. Each claim is checked as the
//! certificate of one pair for which it stands, by the checker of those and without writing it out.
#![tactic(auto)]

pub mod claim;
pub mod either;
pub mod laws;
mod lines;
pub mod names;
pub mod numbers;
pub mod reason;
pub mod rejected;
pub mod room;
pub mod rows;
mod told;
pub mod verifier;

pub use either::check_any;
pub use laws::{
    any_answers_are_one, bundle_answers_are_one, numbers_are_of_bundle_lines,
    rejected_bundles_are_no_evidence,
};
pub use reason::{BundleName, BundleReason};
pub use rejected::BundleRejected;
pub use room::Room;
pub use verifier::BundleVerifier;
