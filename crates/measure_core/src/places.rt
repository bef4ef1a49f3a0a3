// Places of two lists of documents with their ranks, each list of a run.
ghost use Rattle.std.specs.Prelude.{◌≡◌, ◌≤◌, nat_le, drop, if◌then◌else◌, None, Some};
ghost use Rattle.std.specs.Int.{abs_diff};
ghost use Rattle.desk_model.specs.Limits.{RANK_LIMIT};
ghost use Rattle.measure_laws.specs.Ranks.{IsRankWithin};
ghost use Rattle.measure_core.specs.Worths.{rank_or_none};
ghost use Rattle.measure_core.specs.Places.{rank_unless_after};

use crate::worths::RankWorth;
use desk_model::Placed;

/// The rank of a place, and 0 where its document comes after that of another.
#[inline]
pub fn rank_unless_after(x: Placed, y: Placed) -> u32
    ensures rank { rank_or_none result ≡ (if nat_le x.doc y.doc then rank_or_none x.rank else None) }
    ensures within { result ≤ x.rank }
{
    if x.doc <= y.doc { x.rank } else { 0 }
}

/// A list from a place on.
pub fn rest(places: &[Placed], place: usize) -> &[Placed]
    ensures { result.now ≡ drop place places.now }
{
    &places[place.min(places.len())..]
}

/// The weight of the one of two documents that comes first, or of both where they are one.
#[inline]
pub fn first_weight<W: RankWorth>(ranks: &W, x: Placed, y: Placed) -> u64
    requires first { IsRankWithin RANK_LIMIT (Some x.rank) }
    requires second { IsRankWithin RANK_LIMIT (Some y.rank) }
    ensures { result ≡ abs_diff (W.worth ranks.now (rank_unless_after x y))
        (W.worth ranks.now (rank_unless_after y x)) }
{
    let first = ranks.worth_at(rank_unless_after(x, y));
    let second = ranks.worth_at(rank_unless_after(y, x));
    first.abs_diff(second)
}
