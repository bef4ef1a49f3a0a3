//! Small facts on tests, whole numbers and lists that the standard library has not: lemmas for the proofs of
//! the crates above.
#![tactic(auto)]

pub mod laws;
