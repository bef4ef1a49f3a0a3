//! Desks of small files, whole or in pieces, and on them the pool of a depth, the next document to judge, the bundle of
//! all pairs and the tiers of the runs: tests alone.
#![tactic(auto)]

#[cfg(test)]
mod bundles;
#[cfg(test)]
mod cuts;
#[cfg(test)]
mod desks;
#[cfg(test)]
mod pools;
#[cfg(test)]
mod proposals;
#[cfg(test)]
mod tiers;
