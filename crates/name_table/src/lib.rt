//! Lists of names: in one row of bytes, and such as are searched by name in a bounded number of steps, whatever the names are.
#![tactic(auto)]

mod blocked_names;
mod by_name;
mod distinct_names;
mod hash;
mod named;
mod named_set;
mod names;
mod numbered_names;
mod table;

pub use blocked_names::{BLOCK_NAMES, BlockedNames};
pub use distinct_names::DistinctNames;
pub use named::Named;
pub use named_set::NamedSet;
pub use numbered_names::NumberedNames;
