ghost use Rattle.std.specs.Prelude.{◌≡◌, ◌++◌, length, take, OnOk};
ghost use Rattle.desk_model.specs.Completion.{with_picked};
ghost use Rattle.desk_model.specs.Ranking.{IsRanking};
ghost use Rattle.measure_laws.specs.Prefixes.{only_second};
ghost use Rattle.measure_core.specs.Laws.{AreMet};
ghost use Rattle.measure_core.specs.Lists.{added_documents};
ghost use Rattle.marked_lists.specs.Hidden.{AreHidden};

use crate::own_lists::{LOOKED_UP, push_own};
use desk_model::{Mark, Memory, Ranking};
use measure_core::MarkedPair;
use std::alloc::Global;
use topic_counts::counts::prefix;

/// Up to how many documents of a topic a copy of their marks takes less time than a walk over both rankings.
const COPIED: usize = 100_000;

/// Gives a ranking's first k documents the mark of judged ones.
fn hide_first(k: u32, ranking: &Ranking, marks: &mut [Mark])
    requires { IsRanking (length marks.old) ranking.now }
    ensures { AreHidden (take k ranking.now) marks.old marks.new }
{
    for doc in prefix(ranking.docs(), k) {
        marks[*doc as usize] = Mark::Other;
    }
}

/// Appends them by one pass over the second ranking, over marks that hide the first k documents of the first.
fn push_unhidden(
    alloc: Global,
    k: u32,
    a: &Ranking,
    b: &Ranking,
    marks: &[Mark],
    docs: &mut Vec<u32>,
) -> Result<(), Memory>
    requires { AreMet marks.now a.now b.now }
    ensures { OnOk result (docs.new.items ≡ docs.old.items ++
        added_documents marks.now (with_picked marks.now (only_second k a.now b.now))) }
{
    let mut left = marks.to_vec(alloc)?;
    hide_first(k, a, &mut left);
    let nothing = Ranking::new(alloc, Vec::new(alloc), marks.len() as u32)?;
    let pair = MarkedPair {
        a: &nothing,
        b,
        marks: &left,
    };
    push_own(k, &pair, docs)
}

/// Appends the unjudged documents that b has among its first k and a has not, ascending, as `push_own` does, and
/// over many ranks of a topic that is not large in less time.
///
/// # Errors
/// `Memory`: out of memory. It is then not known what `docs` holds.
pub fn push_own_marked(
    alloc: Global,
    k: u32,
    a: &Ranking,
    b: &Ranking,
    marks: &[Mark],
    docs: &mut Vec<u32>,
) -> Result<(), Memory>
    requires { AreMet marks.now a.now b.now }
    ensures { OnOk result (docs.new.items ≡ docs.old.items ++
        added_documents marks.now (with_picked marks.now (only_second k a.now b.now))) }
{
    if k <= LOOKED_UP || marks.len() > COPIED {
        push_own(k, &MarkedPair { a, b, marks }, docs)
    } else {
        push_unhidden(alloc, k, a, b, marks, docs)
    }
}
