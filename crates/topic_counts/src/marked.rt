ghost use Rattle.std.specs.Prelude.{◌≡◌, ℕ, ◌≤◌, List, length, take};
ghost use Rattle.desk_model.specs.Ranking.{IsRanking};
ghost use Rattle.desk_model.specs.declared.types.Mark.{Mark as M};
ghost use Rattle.topic_counts.specs.Seen.{AreMarksIn, AreSeenCounts};
ghost use Rattle.topic_counts.specs.Own.{AreOwnCounts};

use crate::counts::{Counts, OwnCounts, prefix, prefix_documents};
use desk_model::{Mark, Ranking};

/// Makes `seen` the marks of a ranking's first k documents, and of all other documents that they are
/// not relevant.
pub fn mark_first(k: u32, ranking: &Ranking, marks: &[Mark], seen: &mut [Mark])
    requires ranking { IsRanking (length marks.now) ranking.now }
    requires room { length marks.now ≤ length seen.old }
    ensures seen { AreMarksIn (take k ranking.now) marks.now seen.new }
    ensures count { length seen.new ≡ length seen.old }
{
    seen.fill(Mark::Other);
    for doc in prefix(ranking.docs(), k) {
        seen[*doc as usize] = marks[*doc as usize];
    }
}

/// The counts of the documents that each of two rankings has among its first k, and the other not, by
/// one pass over those of the second: from the counts of the first k of both, and the marks of the
/// first's.
pub fn own_by_marks(
    k: u32,
    first: Counts,
    second: Counts,
    ranking: &Ranking,
    seen: &[Mark],
) -> OwnCounts
    requires { (marks : List M) × (a : List ℕ) ×
        AreSeenCounts k marks a ranking.now first second seen.now }
    ensures first { (marks : List M) (a : List ℕ) →
        AreSeenCounts k marks a ranking.now first second seen.now →
        AreOwnCounts k marks a ranking.now result.first }
    ensures second { (marks : List M) (a : List ℕ) →
        AreSeenCounts k marks a ranking.now first second seen.now →
        AreOwnCounts k marks ranking.now a result.second }
{
    let shared = prefix_documents(k, ranking, seen);
    OwnCounts {
        first: first.without(shared),
        second: second.without(shared),
    }
}
