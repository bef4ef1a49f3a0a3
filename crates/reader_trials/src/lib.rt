//! Lines and fields, the readers of judgements and runs, and the order of a run's rows, by examples: tests alone. They stand above those
//! crates, so that each of them is proved once.
#![tactic(auto)]

#[cfg(test)]
mod cuts;
#[cfg(test)]
mod order;
#[cfg(test)]
mod qrels;
#[cfg(test)]
mod runs;
#[cfg(test)]
mod texts;
