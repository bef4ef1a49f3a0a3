//! The measures beside a walk through every completion of small topics, and beside the plain sums of
//! rank-biased precision and of average precision, and what they stand on, by examples: tests alone.
#![tactic(auto)]

#[cfg(test)]
mod answers;
#[cfg(test)]
mod average_tests;
#[cfg(test)]
mod list_tests;
#[cfg(test)]
mod model;
#[cfg(test)]
mod plain;
#[cfg(test)]
mod powers;
#[cfg(test)]
mod row_tests;
#[cfg(test)]
mod steps;
#[cfg(test)]
mod tail_tests;
#[cfg(test)]
mod tests;
