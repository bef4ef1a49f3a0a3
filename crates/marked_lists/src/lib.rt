//! Lists of the unjudged documents that one of two rankings alone has among its first k, by a walk over both, by looking documents up or
//! by a copy of the marks, and of some more; and counts of these, and of those that both or neither have there.
#![tactic(auto)]

mod more_lists;
mod neutral;
mod own;
mod own_lists;

pub use more_lists::{More, push_own_and_more};
pub use neutral::count_neutral;
pub use own::push_own_marked;
pub use own_lists::{LOOKED_UP, count_own, push_own};
