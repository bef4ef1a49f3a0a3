//! Rank-biased precision by grades on small desks, by hand and against every completion by grades: tests alone.
#![tactic(auto)]

#[cfg(test)]
mod answers;
#[cfg(test)]
mod by_hand;
#[cfg(test)]
mod desks;
#[cfg(test)]
mod every;
#[cfg(test)]
mod plain;
