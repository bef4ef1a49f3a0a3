ghost use Rattle.std.specs.Prelude.{◌≡◌, ℕ, ◌≤◌, Option as Maybe, None, IfOk};
ghost use Rattle.desk_model.specs.Limits.{RANK_LIMIT};
ghost use Rattle.measure_core.specs.Worths.{rank_or_none, AreWorths};

use desk_model::Memory;
use std::alloc::Global;

/// The greatest rank of a run.
const MOST_RANKS: u32 = 10_000;

/// What ranks are worth. A document weighs as much in a pair of runs as its two ranks differ in worth.
pub trait RankWorth {
    /// What `worth_at` answers.
    ghost worth: { Self → Maybe ℕ → ℕ };

    /// What a rank is worth, from 1; 0 stands for that of an absent document.
    fn worth_at(&self, rank: u32) -> u64
        requires { rank ≤ RANK_LIMIT }
        ensures { result ≡ worth self.now (rank_or_none rank) };

    /// The rank of an absent document is worth nothing.
    ghost absent: { (w : Self) → worth w None ≡ 0 };
}

/// A rank from 1, and none for 0.
#[inline]
pub fn rank_or_none(rank: u32) -> Option<u32>
    ensures { result ≡ rank_or_none rank }
{
    if rank > 0 { Some(rank) } else { None }
}

/// What each rank is worth, by the rank: at 0 that of an absent document, and then to the greatest of a run.
///
/// # Errors
/// `Memory`: out of memory.
pub fn worths_of<W: RankWorth>(alloc: Global, ranks: &W) -> Result<Vec<u64>, Memory>
    ensures { IfOk result (λ worths. AreWorths (W.worth ranks.now) worths.items) }
{
    let mut worths = Vec::new(alloc);
    for rank in 0..MOST_RANKS + 1 {
        worths.push(ranks.worth_at(rank))?;
    }
    Ok(worths)
}
