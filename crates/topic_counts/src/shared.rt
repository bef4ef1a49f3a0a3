ghost use Rattle.std.specs.Prelude.{◌≡◌, ◌+◌, ◌≤◌, length, take, true, false, ◌&&◌, nat_eq, nat_le, if◌then◌else◌};
ghost use Rattle.desk_model.specs.Ranking.{IsRanking};
ghost use Rattle.topic_counts.specs.Own.{shared_count};

use crate::counts::Counts;
use crate::pairs::passed;
use desk_model::{Mark, Placed, Ranking};

/// Whether two places are of one document, at a rank of at most k in both.
fn is_shared(k: u32, x: Placed, y: Placed) -> bool
    ensures { result ≡ (nat_eq x.doc y.doc && (nat_le x.rank k && nat_le y.rank k)) }
{
    (x.doc == y.doc) & (x.rank <= k) & (y.rank <= k)
}

/// The counts of the documents that are among the first k of two rankings, by one walk over both in
/// order of the documents.
pub fn shared_documents(k: u32, a: &Ranking, b: &Ranking, marks: &[Mark]) -> Counts
    requires first { IsRanking (length marks.now) a.now }
    requires second { IsRanking (length marks.now) b.now }
    ensures least { result.relevant ≡ shared_count false marks.now (take k a.now) (take k b.now) }
    ensures most { result.relevant + result.unjudged ≡
        shared_count true marks.now (take k a.now) (take k b.now) }
{
    let first = a.by_doc();
    let second = b.by_doc();
    let mut counts = Counts::NONE;
    let mut i = 0;
    let mut j = 0;
    while i < first.len() && j < second.len() {
        let x = first[i];
        let y = second[j];
        counts = counts.with_if(is_shared(k, x, y), marks[x.doc as usize]);
        i += passed(x, y);
        j += passed(y, x);
    }
    counts
}
