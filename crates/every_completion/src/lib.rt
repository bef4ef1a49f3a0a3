//! The extremes of a topic by a walk through every completion of it: a plain and slow program of the
//! definitions, to compare the measures with.
#![tactic(auto)]

pub mod ends;
pub mod fraction;
pub mod rankings;
pub mod rounding;
pub mod scale;
pub mod scores;
pub mod walk;

pub use ends::{EndsFault, ExtremeEnds};
pub use rankings::is_ranking;
pub use walk::extremes;
