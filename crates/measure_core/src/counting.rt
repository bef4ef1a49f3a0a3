// How often lists of documents that completions make relevant though they are not judged have each document.
ghost use Rattle.std.specs.Prelude.{◌≡◌, ◌<◌, ◌&&◌, All, length, nat_lt, if◌then◌else◌};
ghost use Rattle.desk_model.specs.Mark.{is_unjudged};
ghost use Rattle.measure_core.specs.Lists.{first_by_ranks, AreCounted, HaveRoomFor};
ghost use Rattle.measure_core.specs.Worths.{rank_or_none};

use crate::marked::RankedPair;
use crate::rank_lists::RankTest;
use desk_model::Mark;

/// How many documents the least and the most case of a pair of rankings make relevant though they are not judged.
#[derive(Clone, Copy, PartialEq, Eq)]
pub struct ListSizes {
    pub least: u32,
    pub most: u32,
}

/// Counts each document of a list once more. Counts go by the number of the document.
pub fn count_list(counts: &mut [u32], list: &[u32])
    requires within { All (λ doc. doc < length counts.old) list.now }
    requires room { HaveRoomFor counts.old list.now }
    ensures { AreCounted counts.old list.now counts.new }
{
    for doc in list {
        counts[*doc as usize] += 1;
    }
}

/// 1 for a document that is counted, by its ranks, where so many are left to be counted, and 0 for another. No jump
/// depends on it, which no processor foresees.
#[inline]
fn counted<T: RankTest>(test: &T, first: u32, second: u32, mark: Mark, left: u32) -> u32
    ensures { result ≡
        (if (is_unjudged mark && T.test test.now (rank_or_none first) (rank_or_none second)) &&
        nat_lt 0 left then 1 else 0) }
{
    u32::from(((mark == Mark::Unjudged) & test.passes(first, second)) & (left > 0))
}

/// Counts the first unjudged documents whose ranks in a and b pass a test, so many at most, by one pass over b, from the
/// rank of each document in a. It answers how many they are, and takes no memory.
pub fn count_by_ranks<T: RankTest>(
    test: &T,
    most: u32,
    ranked: &RankedPair,
    counts: &mut [u32],
) -> u32
    requires size { length counts.old ≡ length ranked.now.marks.now }
    requires room { HaveRoomFor counts.old
        (first_by_ranks most (T.test test.now) ranked.now.marks.now ranked.now.a.now
        ranked.now.b.now) }
    ensures count { result ≡
        length (first_by_ranks most (T.test test.now) ranked.now.marks.now ranked.now.a.now
        ranked.now.b.now) }
    ensures counts { AreCounted counts.old
        (first_by_ranks most (T.test test.now) ranked.now.marks.now ranked.now.a.now
        ranked.now.b.now) counts.new }
{
    let marks = ranked.marks;
    let ranks = ranked.first;
    let mut left = most;
    for place in ranked.b.by_doc() {
        let doc = place.doc as usize;
        let more = counted(test, ranks[doc], place.rank, marks[doc], left);
        counts[doc] += more;
        left -= more;
    }
    most - left
}
