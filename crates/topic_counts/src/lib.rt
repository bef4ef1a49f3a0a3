//! What several measures count and walk on a topic, and whole numbers that enclose fractions: floors, ceilings, and
//! powers rounded outward.
#![tactic(auto)]

pub mod counts;
pub mod marked;
pub mod pairs;
pub mod powers;
pub mod ranks;
pub mod shared;
pub mod span;
pub mod topic;

pub use powers::Powers;
pub use span::{Span, span_of};
