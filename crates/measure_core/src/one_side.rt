ghost use Rattle.std.specs.Prelude.{◌≡◌, length, take};
ghost use Rattle.desk_model.specs.Ranking.{IsRanking};
ghost use Rattle.measure_laws.specs.Weights.{one_side_weight};
ghost use Rattle.measure_core.specs.Shifts.{HaveRoom, AreShifted};
ghost use Rattle.measure_core.specs.OneSide.{alone_weight};

use crate::Shift;
use crate::by_ranks::shift_by_ranks;
use crate::worths::RankWorth;
use desk_model::Ranking;
use topic_counts::counts::is_among_first;

/// Up to which k it is faster to look each document up in the other ranking than to walk over both.
const LOOKED_UP: u32 = 128;

/// The first k documents, or all where there are fewer.
fn prefix(docs: &[u32], k: u32) -> &[u32]
    ensures { result.now ≡ take k docs.now }
{
    &docs[..docs.len().min(k as usize)]
}

/// A worth of 1 for each of the first k ranks.
#[derive(Clone, Copy)]
struct FirstRanks {
    k: u32,
}

impl RankWorth for FirstRanks {
    ghost use Rattle.std.specs.Prelude.{refl};
    ghost use Rattle.measure_core.specs.OneSide.{by_worth};

    ghost worth = { λ ranks. by_worth ranks.k };

    #[inline]
    fn worth_at(&self, rank: u32) -> u64 {
        u64::from((rank > 0) & (rank <= self.k))
    }

    ghost absent = { λ _. refl };
}

/// Adds 1 to the total of each document that a ranking has among its first k and another has not, or takes it back.
fn shift_alone(k: u32, other: &Ranking, ranking: &Ranking, shift: Shift, totals: &mut [u128])
    requires ranking { IsRanking (length totals.old) ranking.now }
    requires room { HaveRoom shift (alone_weight k other.now ranking.now) totals.old }
    ensures { AreShifted shift (alone_weight k other.now ranking.now) totals.old totals.new }
{
    for doc in prefix(ranking.docs(), k) {
        if !is_among_first(k, other, *doc) {
            let total = &mut totals[*doc as usize];
            *total = shift.apply(*total, 1);
        }
    }
}

/// Adds 1 to the total of each document that exactly one of two rankings has among its first k, or takes it back.
pub fn shift_one_side(k: u32, a: &Ranking, b: &Ranking, shift: Shift, totals: &mut [u128])
    requires first { IsRanking (length totals.old) a.now }
    requires second { IsRanking (length totals.old) b.now }
    requires room { HaveRoom shift (one_side_weight k a.now b.now) totals.old }
    ensures { AreShifted shift (one_side_weight k a.now b.now) totals.old totals.new }
{
    if k <= LOOKED_UP {
        shift_alone(k, a, b, shift, totals);
        shift_alone(k, b, a, shift, totals);
    } else {
        shift_by_ranks(&FirstRanks { k }, a, b, shift, totals);
    }
}
