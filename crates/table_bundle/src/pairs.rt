// The pairs of runs in the order of their names.
ghost use Rattle.std.specs.Prelude.{◌≡◌, ◌≤◌, length, IfOk};
ghost use Rattle.desk_model.specs.Limits.{RUN_LIMIT};
ghost use Rattle.table_bundle.specs.Drafts.{pairs_in};

use desk_model::{Memory, PairPlaces};
use std::alloc::Global;

/// Two runs of a desk by their numbers, and their places among the names.
#[derive(Clone, Copy)]
pub struct NamedPair {
    pub at: PairPlaces,
    pub first: u32,
    pub second: u32,
}

/// All pairs of the runs in an order, by the places of the first and then of the second.
pub fn named_pairs(alloc: Global, order: &[u32]) -> Result<Vec<NamedPair>, Memory>
    requires some { 1 ≤ length order.now }
    requires few { length order.now ≤ RUN_LIMIT }
    ensures { IfOk result (λ pairs. pairs.items ≡ pairs_in order.now) }
{
    let runs = order.len() as u32;
    let count = runs * (runs - 1) / 2;
    let mut pairs = Vec::with_capacity(alloc, count as usize)?;
    let mut at = PairPlaces::START;
    for _pair in 0..count {
        pairs.push(NamedPair {
            at,
            first: order[at.first as usize],
            second: order[at.second as usize],
        })?;
        at = at.next(runs);
    }
    Ok(pairs)
}
