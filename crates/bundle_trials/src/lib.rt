//! Trials of certificates of either version: texts that are read, refused and written again, how long they are, and what a check answers.
#![tactic(auto)]

#[cfg(test)]
mod depths;
#[cfg(test)]
mod desks;
#[cfg(test)]
mod lengths;
#[cfg(test)]
mod texts;
#[cfg(test)]
mod verdicts;
