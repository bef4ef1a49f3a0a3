//! The public calls of crates that stand on no measure: tests alone. They stand above those crates, so that each of
//! them is proved once.
#![tactic(auto)]

#[cfg(test)]
mod certificates;
#[cfg(test)]
mod ends;
#[cfg(test)]
mod host;
#[cfg(test)]
mod lines;
#[cfg(test)]
mod memory;
#[cfg(test)]
mod reading;
#[cfg(test)]
mod scores;
#[cfg(test)]
mod texts;
#[cfg(test)]
mod words;
