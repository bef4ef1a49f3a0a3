// Lists of the unjudged documents that one of two rankings alone has among its first k, and counts of these documents.
ghost use Rattle.std.specs.Prelude.{◌≡◌, ◌≤◌, ◌++◌, ◌&&◌, not, length, take, drop, filter, OnOk, IsPermutation};
ghost use Rattle.std.specs.List.Sorted.{IsSorted};
ghost use Rattle.std.specs.Ordering.{nat_cmp};
ghost use Rattle.desk_model.specs.Completion.{with_picked};
ghost use Rattle.desk_model.specs.Mark.{is_unjudged, mark_at};
ghost use Rattle.desk_model.specs.Ranking.{is_in};
ghost use Rattle.measure_laws.specs.Prefixes.{only_second};
ghost use Rattle.measure_core.specs.Lists.{added_documents, own_documents, AreCounted, HaveRoomFor};

use desk_model::{Mark, Memory, Ranking};
use measure_core::{MarkedPair, RankTest, RankedPair, count_by_ranks, push_by_ranks};
use topic_counts::counts::{is_among_first, prefix};

/// Up to which k it is faster to look each document up in the other ranking and to sort than to walk over both.
pub const LOOKED_UP: u32 = 128;

/// The documents that the second ranking alone has at one of its first k ranks.
#[derive(Clone, Copy)]
pub(crate) struct SecondAlone {
    pub(crate) k: u32,
}

impl RankTest for SecondAlone {
    ghost use Rattle.std.specs.Prelude.{◌&&◌, not, refl};
    ghost use Rattle.measure_core.specs.OneSide.{is_by};

    ghost test = { λ t first second. is_by t.k second && not (is_by t.k first) };

    #[inline]
    fn passes(&self, first: u32, second: u32) -> bool {
        (second > 0) & (second <= self.k) & ((first == 0) | (first > self.k))
    }

    ghost absent = { λ _ _. refl };
}

/// Whether an unjudged document is not among the first k of a ranking.
fn is_open_outside(k: u32, ranking: &Ranking, doc: u32, mark: Mark) -> bool
    ensures { result ≡ (is_unjudged mark && not (is_in (take k ranking.now) doc)) }
{
    mark == Mark::Unjudged && !is_among_first(k, ranking, doc)
}

/// Appends them in the order of the second ranking, by looking each up in the first.
fn push_found(k: u32, pair: &MarkedPair, docs: &mut Vec<u32>) -> Result<(), Memory>
    ensures { OnOk result (docs.new.items ≡ docs.old.items ++
        filter (λ doc. is_unjudged (mark_at pair.now.marks.now doc) &&
        not (is_in (take k pair.now.a.now) doc)) (take k pair.now.b.now)) }
{
    let marks = pair.marks;
    for doc in prefix(pair.b.docs(), k) {
        if is_open_outside(k, pair.a, *doc, marks[*doc as usize]) {
            docs.push(*doc)?;
        }
    }
    Ok(())
}

/// Sorts a list from a place on.
fn sort_rest(docs: &mut Vec<u32>, start: usize)
    ensures before { take start docs.new.items ≡ take start docs.old.items }
    ensures moved { IsPermutation (drop start docs.old.items) (drop start docs.new.items) }
    ensures sorted { IsSorted nat_cmp (drop start docs.new.items) }
{
    let start = start.min(docs.len());
    docs[start..].sort_unstable();
}

/// Appends the unjudged documents that b has among its first k and a has not, ascending.
///
/// # Errors
/// `Memory`: out of memory. It is then not known what `docs` holds.
pub fn push_own(k: u32, pair: &MarkedPair, docs: &mut Vec<u32>) -> Result<(), Memory>
    ensures { OnOk result (docs.new.items ≡ docs.old.items ++
        added_documents pair.now.marks.now
        (with_picked pair.now.marks.now (only_second k pair.now.a.now pair.now.b.now))) }
{
    if k > LOOKED_UP {
        return push_by_ranks(&SecondAlone { k }, pair, docs);
    }
    let start = docs.len();
    push_found(k, pair, docs)?;
    sort_rest(docs, start);
    Ok(())
}

/// Counts the first unjudged documents that b has among its first k and a has not, so many at most, from the rank of
/// each document in a. It answers how many they are, and takes no memory.
pub fn count_own(k: u32, most: u32, ranked: &RankedPair, counts: &mut [u32]) -> u32
    requires size { length counts.old ≡ length ranked.now.marks.now }
    requires room { HaveRoomFor counts.old
        (take most
        (own_documents k ranked.now.marks.now ranked.now.a.now ranked.now.b.now)) }
    ensures count { result ≡
        length (take most
        (own_documents k ranked.now.marks.now ranked.now.a.now ranked.now.b.now)) }
    ensures counts { AreCounted counts.old
        (take most
        (own_documents k ranked.now.marks.now ranked.now.a.now ranked.now.b.now)) counts.new }
{
    count_by_ranks(&SecondAlone { k }, most, ranked, counts)
}
