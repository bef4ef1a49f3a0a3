//! What a session keeps, and what a table by grades and tiers evaluate, by a measure that counts how often it is asked:
//! tests alone.
//! They stand above the top call, so that it waits for no measure.
#![tactic(auto)]

#[cfg(test)]
mod anew;
#[cfg(test)]
mod counting;
#[cfg(test)]
mod graded;
#[cfg(test)]
mod kept;
#[cfg(test)]
mod session;
#[cfg(test)]
mod tiers;
