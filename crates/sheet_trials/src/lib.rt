//! Sheets of assessors, by examples: tests alone.
#![tactic(auto)]

#[cfg(test)]
mod faults;
#[cfg(test)]
mod merges;
