//! How many lists of pairs of runs are those of each run's candidates, and how often these lists have each document.
ghost use Rattle.std.specs.Prelude.{◌≡◌, ℕ, ◌+◌, ◌≤◌, ◌^◌, ◌&&◌, List, length, slice_index, if◌then◌else◌, OnOk};
ghost use Rattle.desk_model.specs.Mark.{is_unjudged};
ghost use Rattle.desk_model.specs.declared.types.Mark.{Mark as M};
ghost use Rattle.measure_core.specs.Lists.{added_documents, times};
ghost use Rattle.measure_core.specs.PairLists.{IsOfRuns};
ghost use Rattle.measure_core.specs.Pairs.{DeskTopic, ranking_on, runs_on};
ghost use Rattle.precision_candidates.specs.Classes.{has};
ghost use Rattle.average_precision.specs.Least.{case_truth};
ghost use Rattle.average_precision.specs.Uses.{all_shares, share, AreRaised, AreUsesUpTo, HaveRoomFor};

use crate::kept::KeptRuns;
use crate::numbers::Case;
use desk_model::{Mark, Memory};
use measure_core::{Class, RunPair};
use precision_candidates::classes::{KeptClasses, mark_run};
use precision_candidates::crossing::is_in;
use std::alloc::Global;

/// How many lists are that of a run's high candidate, and that of its low one.
#[derive(Clone, Copy, PartialEq, Eq)]
pub struct Uses {
    pub high: u64,
    pub low: u64,
}

impl Uses {
    /// Of no list.
    pub const NONE: Uses = Uses { high: 0, low: 0 };
}

/// Counts the list of a case of two runs, by their numbers.
pub fn add_case(case: Case, pair: RunPair, uses: &mut [Uses])
    requires pair { IsOfRuns (length uses.old) pair }
    requires room { AreUsesUpTo (2 ^ 63) uses.old }
    ensures uses { (marks : List M) (t : DeskTopic) (doc : ℕ) →
        all_shares marks t uses.new doc ≡ all_shares marks t uses.old doc +
        times
        (added_documents marks
        (case_truth marks (ranking_on t pair.first) (ranking_on t pair.second) case)) doc }
    ensures few { (most : ℕ) → AreUsesUpTo most uses.old → AreUsesUpTo (most + 1) uses.new }
    ensures size { length uses.new ≡ length uses.old }
{
    match case {
        Case::OfNone => {}
        Case::OfLow => {
            let kept = uses[pair.first as usize];
            uses[pair.first as usize] = Uses {
                low: kept.low + 1,
                ..kept
            };
        }
        Case::OfHigh => {
            let kept = uses[pair.second as usize];
            uses[pair.second as usize] = Uses {
                high: kept.high + 1,
                ..kept
            };
        }
    }
}

/// How many of so many lists of a run's high candidate, or of its low one, have a document with this mark and class.
#[inline]
fn lists_with(high: bool, mark: Mark, class: Class, lists: u64) -> u64
    ensures { result ≡ (if is_unjudged mark && has high class then lists else 0) }
{
    if (mark == Mark::Unjudged) & is_in(high, class) {
        lists
    } else {
        0
    }
}

/// Counts the documents of the lists of a run's candidates.
fn count_run(run: &KeptClasses<'_>, uses: Uses, counts: &mut [u32])
    requires size { length counts.old ≡ length run.now.run.on.marks.now }
    requires room { HaveRoomFor counts.old
        (share run.now.run.on.marks.now run.now.run.on.docs.now uses) }
    ensures { AreRaised counts.old (share run.now.run.on.marks.now run.now.run.on.docs.now uses)
        counts.new }
{
    let marks = run.run.on.marks;
    for doc in 0..marks.len() {
        let mark = marks[doc];
        let class = run.classes[doc];
        let high = lists_with(true, mark, class, uses.high);
        let low = lists_with(false, mark, class, uses.low);
        counts[doc] += high as u32 + low as u32;
    }
}

/// Counts the documents of the lists of all runs' candidates.
///
/// # Errors
/// `Memory`: out of memory. Nothing is counted.
pub fn count_uses(
    alloc: Global,
    kept: &KeptRuns<'_, '_>,
    uses: &[Uses],
    counts: &mut [u32],
) -> Result<(), Memory>
    requires runs { length uses.now ≡ runs_on kept.now.on.rankings.now }
    requires size { length counts.old ≡ length kept.now.on.marks.now }
    requires room { HaveRoomFor counts.old
        (all_shares kept.now.on.marks.now kept.now.on.rankings.now uses.now) }
    ensures { OnOk result (AreRaised counts.old
        (all_shares kept.now.on.marks.now kept.now.on.rankings.now uses.now) counts.new) }
{
    let mut classes = vec![in alloc; Class::Neither; kept.on.marks.len()]?;
    for run in 0..kept.on.rankings.runs() {
        let chosen = kept.chosen(run);
        mark_run(&chosen, &mut classes);
        let marked = KeptClasses {
            run: chosen,
            classes: &classes,
        };
        count_run(&marked, uses[run as usize], counts);
    }
    Ok(())
}
