ghost use Rattle.std.specs.Prelude.{◌≡◌, ◌+◌, ◌^◌, ◌≤◌, ◌<◌, ◌&&◌, not, true, false, length, take, if◌then◌else◌};
ghost use Rattle.desk_model.specs.Completion.{picked_value};
ghost use Rattle.desk_model.specs.Ranking.{IsRanking, is_in};
ghost use Rattle.topic_ends.specs.Own.{CountsOwn, IsOrdered};

use crate::counts::{RelevantCounts, is_among_first};
use crate::pair::MarkedPair;
use crate::ranks::longer;
use desk_model::{Mark, Ranking};

/// The counts of the documents that each of two rankings has among its first ones, and the other not.
#[derive(Clone, Copy, PartialEq, Eq)]
pub struct Own {
    pub first: RelevantCounts,
    pub second: RelevantCounts,
}

impl Own {
    /// The counts of no documents.
    pub const NONE: Own = Own {
        first: RelevantCounts::NONE,
        second: RelevantCounts::NONE,
    };

    /// The counts of the swapped rankings.
    fn swapped(self) -> Own
        ensures first { result.first ≡ self.second }
        ensures second { result.second ≡ self.first }
    {
        Own {
            first: self.second,
            second: self.first,
        }
    }

    /// The counts of the first k documents, one document deeper in both rankings at a time.
    pub fn of_first(k: u32, pair: &MarkedPair<'_, '_, '_>) -> Own
        ensures own { CountsOwn pair.now.marks.now (take k pair.now.a.now)
            (take k pair.now.b.now) result }
        ensures ordered { IsOrdered result }
    {
        let mut own = Own::NONE;
        for depth in 0..k.min(longer(pair.a, pair.b)) {
            own = own.deepened(depth, pair);
        }
        own
    }

    /// With one document more of the first ranking: it is no longer the second's own where that has it
    /// among its first ones, and else it is the first's own.
    fn with_next(self, mark: Mark, is_shared: bool) -> Own
        requires ordered { IsOrdered self }
        requires relevant { (if picked_value false mark && is_shared then 1 else 0) ≤
            self.second.relevant }
        requires possible { (if picked_value true mark && is_shared then 1 else 0) ≤
            self.second.possible }
        ensures first_relevant { result.first.relevant ≡ self.first.relevant +
            (if picked_value false mark && not is_shared then 1 else 0) }
        ensures first_possible { result.first.possible ≡ self.first.possible +
            (if picked_value true mark && not is_shared then 1 else 0) }
        ensures second_relevant { result.second.relevant +
            (if picked_value false mark && is_shared then 1 else 0) ≡ self.second.relevant }
        ensures second_possible { result.second.possible +
            (if picked_value true mark && is_shared then 1 else 0) ≡ self.second.possible }
    {
        if is_shared {
            Own {
                first: self.first,
                second: self.second.without(mark),
            }
        } else {
            Own {
                first: self.first.with(mark),
                second: self.second,
            }
        }
    }

    /// The same by the document, where so many of the second ranking are seen. One that is judged not relevant changes
    /// no count, and is not looked up there.
    fn with_marked(self, mark: Mark, doc: u32, seen: u32, other: &Ranking) -> Own
        requires ordered { IsOrdered self }
        requires relevant { (if picked_value false mark && is_in (take seen other.now) doc then 1
            else 0) ≤ self.second.relevant }
        requires possible { (if picked_value true mark && is_in (take seen other.now) doc then 1
            else 0) ≤ self.second.possible }
        ensures first_relevant { result.first.relevant ≡ self.first.relevant +
            (if picked_value false mark && not (is_in (take seen other.now) doc) then 1 else 0) }
        ensures first_possible { result.first.possible ≡ self.first.possible +
            (if picked_value true mark && not (is_in (take seen other.now) doc) then 1 else 0) }
        ensures second_relevant { result.second.relevant +
            (if picked_value false mark && is_in (take seen other.now) doc then 1 else 0) ≡
            self.second.relevant }
        ensures second_possible { result.second.possible +
            (if picked_value true mark && is_in (take seen other.now) doc then 1 else 0) ≡
            self.second.possible }
    {
        match mark {
            Mark::Other => self,
            Mark::Relevant | Mark::Unjudged => {
                self.with_next(mark, is_among_first(seen, other, doc))
            }
        }
    }

    /// With the document of the first ranking after so many, where there is one. Of the second so many
    /// are seen.
    fn with_document(
        self,
        depth: u32,
        ranking: &Ranking,
        seen: u32,
        other: &Ranking,
        marks: &[Mark],
    ) -> Own
        requires first { IsRanking (length marks.now) ranking.now }
        requires second { IsRanking (length marks.now) other.now }
        requires own { CountsOwn marks.now (take depth ranking.now) (take seen other.now) self }
        ensures { CountsOwn marks.now (take (depth + 1) ranking.now) (take seen other.now) result }
    {
        match ranking.docs().get(depth as usize) {
            Some(doc) => self.with_marked(marks[*doc as usize], *doc, seen, other),
            None => self,
        }
    }

    /// The counts one document deeper in both rankings.
    pub fn deepened(self, depth: u32, pair: &MarkedPair<'_, '_, '_>) -> Own
        requires depth { depth + 1 < 2 ^ 32 }
        requires own { CountsOwn pair.now.marks.now (take depth pair.now.a.now)
            (take depth pair.now.b.now) self }
        ensures { CountsOwn pair.now.marks.now (take (depth + 1) pair.now.a.now)
            (take (depth + 1) pair.now.b.now) result }
    {
        let a = pair.a;
        let b = pair.b;
        let marks = pair.marks;
        let first = self.with_document(depth, a, depth, b, marks).swapped();
        first.with_document(depth, b, depth + 1, a, marks).swapped()
    }
}
