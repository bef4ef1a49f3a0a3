//! The top call over files, input and outputs in memory: what commands and sessions print, a demo, an outside that fails
//! and hostile input. Tests alone; they stand above the top call, so that it waits for no measure and is proved once.
#![tactic(auto)]

#[cfg(test)]
mod bundles;
#[cfg(test)]
mod calls;
#[cfg(test)]
mod certificates;
#[cfg(test)]
mod certified;
#[cfg(test)]
mod cuts;
#[cfg(test)]
mod demos;
#[cfg(test)]
mod depths;
#[cfg(test)]
mod failing;
#[cfg(test)]
mod files;
#[cfg(test)]
mod graded;
#[cfg(test)]
mod limits;
#[cfg(test)]
mod measured;
#[cfg(test)]
mod outside;
#[cfg(test)]
mod refusals;
#[cfg(test)]
mod run;
#[cfg(test)]
mod sessions;
#[cfg(test)]
mod sheets;
#[cfg(test)]
mod tables;
#[cfg(test)]
mod tiers;
