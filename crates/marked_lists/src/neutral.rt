// Counts of the unjudged documents that both or neither of two rankings have among their first k.
ghost use Rattle.std.specs.Prelude.{◌≡◌, ◌&&◌, not, length, if◌then◌else◌};
ghost use Rattle.desk_model.specs.Mark.{is_unjudged};
ghost use Rattle.measure_core.specs.Lists.{first_neutral, AreCounted, HaveRoomFor};
ghost use Rattle.measure_core.specs.OneSide.{is_by};
ghost use Rattle.measure_core.specs.Worths.{rank_or_none};

use crate::more_lists::is_by;
use desk_model::Mark;
use measure_core::RankedPair;

/// 1 for an unjudged document that both or neither have there, by its ranks, and 0 for another.
#[inline]
fn counted(k: u32, first: u32, second: u32, mark: Mark) -> u32
    ensures { result ≡
        (if is_unjudged mark &&
        (not (is_by k (rank_or_none second) && not (is_by k (rank_or_none first))) && not
        (is_by k (rank_or_none first) && not (is_by k (rank_or_none second)))) then 1 else 0) }
{
    u32::from((mark == Mark::Unjudged) & (is_by(k, first) == is_by(k, second)))
}

/// Counts the first unjudged documents that both or neither of two rankings have among their first k, so many at most,
/// by one pass over the marks and the ranks of both up to the last of them. It answers how many they are, and takes no
/// memory.
pub fn count_neutral(k: u32, most: u32, ranked: &RankedPair, counts: &mut [u32]) -> u32
    requires size { length counts.old ≡ length ranked.now.marks.now }
    requires room { HaveRoomFor counts.old
        (first_neutral k most ranked.now.marks.now ranked.now.a.now ranked.now.b.now) }
    ensures count { result ≡
        length (first_neutral k most ranked.now.marks.now ranked.now.a.now ranked.now.b.now) }
    ensures counts { AreCounted counts.old
        (first_neutral k most ranked.now.marks.now ranked.now.a.now ranked.now.b.now)
        counts.new }
{
    let marks = ranked.marks;
    let first = ranked.first;
    let second = ranked.second;
    let mut left = most;
    let mut doc = 0;
    while doc < marks.len() && left > 0 {
        let more = counted(k, first[doc], second[doc], marks[doc]);
        counts[doc] += more;
        left -= more;
        doc += 1;
    }
    most - left
}
