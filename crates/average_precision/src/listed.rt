//! The lists of the documents that the cases of many pairs of runs add on a topic. Each list is that of a run's high
//! candidate, or of its low one: how many pairs have it is counted first, and then its documents, once for all of them.
ghost use Rattle.std.specs.Prelude.{◌≡◌, ℕ, ◌+◌, ◌^◌, All, length, map, IfOk, OnOk};
ghost use Rattle.desk_model.specs.declared.types.MeasureName.TheVariants.{AveragePrecision as A};
ghost use Rattle.measure_core.specs.Lists.{added_documents, times, AreCounted, HaveRoomFor};
ghost use Rattle.measure_core.specs.PairLists.{documents_on, pair_documents, sizes_on, IsOfRuns};
ghost use Rattle.measure_core.specs.Pairs.{ranking_on, runs_on};
ghost use Rattle.average_precision.specs.Least.{case_truth};
ghost use Rattle.average_precision.specs.Uses.{all_shares, AreUsesUpTo};

use crate::average_precision::AveragePrecision;
use crate::cells::CrossedRuns;
use crate::kept::{KeptRuns, TopicRuns};
use crate::numbers::Case;
use crate::uses::{Uses, add_case, count_uses};
use desk_model::Memory;
use measure_core::{Class, CrossScores, ListSizes, RunCandidates, RunPair, TopicRankings};
use std::alloc::Global;

/// How many documents the list of a case of two runs has.
fn size_of(kept: &KeptRuns<'_, '_>, case: Case, pair: RunPair) -> u32
    requires { IsOfRuns (runs_on kept.now.on.rankings.now) pair }
    ensures { result ≡
        length (added_documents kept.now.on.marks.now
        (case_truth kept.now.on.marks.now (ranking_on kept.now.on.rankings.now pair.first)
        (ranking_on kept.now.on.rankings.now pair.second) case)) }
{
    let relevant = kept.on.all.relevant;
    match case {
        Case::OfNone => 0,
        Case::OfLow => kept.kept(pair.first).in_low - relevant,
        Case::OfHigh => kept.kept(pair.second).in_high - relevant,
    }
}

/// Counts the two lists of a pair among those of its runs' candidates, and answers their sizes.
fn list_pair(runs: &CrossedRuns<'_, '_>, pair: RunPair, uses: &mut [Uses]) -> ListSizes
    requires pair { IsOfRuns (runs_on runs.now.kept.on.rankings.now) pair }
    requires runs { length uses.old ≡ runs_on runs.now.kept.on.rankings.now }
    requires few { AreUsesUpTo (2 ^ 62) uses.old }
    ensures sizes { result ≡
        sizes_on A runs.now.kept.on.marks.now runs.now.kept.on.rankings.now pair }
    ensures uses { (doc : ℕ) →
        all_shares runs.now.kept.on.marks.now runs.now.kept.on.rankings.now uses.new doc ≡
        all_shares runs.now.kept.on.marks.now runs.now.kept.on.rankings.now uses.old doc +
        times (documents_on A runs.now.kept.on.marks.now runs.now.kept.on.rankings.now pair)
        doc }
    ensures few { (most : ℕ) → AreUsesUpTo most uses.old → AreUsesUpTo (most + 2) uses.new }
    ensures size { length uses.new ≡ length uses.old }
{
    let both = runs.leasts(pair);
    let swapped = RunPair {
        first: pair.second,
        second: pair.first,
    };
    add_case(both.least.kind, pair, uses);
    add_case(both.swapped.kind, swapped, uses);
    ListSizes {
        least: size_of(&runs.kept, both.least.kind, pair),
        most: size_of(&runs.kept, both.swapped.kind, swapped),
    }
}

/// Counts the lists of pairs among those of the runs' candidates, and answers their sizes.
///
/// # Errors
/// `Memory`: out of memory. It is then not known what is counted.
fn list_pairs(
    alloc: Global,
    runs: &CrossedRuns<'_, '_>,
    pairs: &[RunPair],
    uses: &mut [Uses],
) -> Result<Vec<ListSizes>, Memory>
    requires pairs { All (IsOfRuns (runs_on runs.now.kept.on.rankings.now)) pairs.now }
    requires runs { length uses.old ≡ runs_on runs.now.kept.on.rankings.now }
    requires unused { AreUsesUpTo 0 uses.old }
    ensures sizes { IfOk result (λ sizes. sizes.items ≡
        map (sizes_on A runs.now.kept.on.marks.now runs.now.kept.on.rankings.now) pairs.now) }
    ensures uses { OnOk result ((doc : ℕ) →
        all_shares runs.now.kept.on.marks.now runs.now.kept.on.rankings.now uses.new doc ≡
        times
        (pair_documents A runs.now.kept.on.marks.now runs.now.kept.on.rankings.now pairs.now)
        doc) }
    ensures size { length uses.new ≡ length uses.old }
{
    let mut sizes = Vec::with_capacity(alloc, pairs.len())?;
    for pair in pairs {
        sizes.push(list_pair(runs, *pair, uses))?;
    }
    Ok(sizes)
}

impl AveragePrecision {
    /// Counts the documents of the lists of pairs, each once more for each list that has it, and answers the sizes of
    /// the two lists of each pair.
    ///
    /// # Errors
    /// `Memory`: out of memory. It is then not known what is counted.
    pub(crate) fn listed_pairs(
        &self,
        alloc: Global,
        on: &TopicRuns<'_, '_>,
        pairs: &[RunPair],
        counts: &mut [u32],
    ) -> Result<Vec<ListSizes>, Memory>
        requires pairs { All (IsOfRuns (runs_on on.now.rankings.now)) pairs.now }
        requires size { length counts.old ≡ length on.now.marks.now }
        requires room { HaveRoomFor counts.old
            (pair_documents A on.now.marks.now on.now.rankings.now pairs.now) }
        ensures sizes { IfOk result (λ sizes. sizes.items ≡
            map (sizes_on A on.now.marks.now on.now.rankings.now) pairs.now) }
        ensures counts { OnOk result
            (AreCounted counts.old
            (pair_documents A on.now.marks.now on.now.rankings.now pairs.now) counts.new) }
    {
        let runs = on.rankings.runs() as usize;
        let mut own = vec![in alloc; RunCandidates::NONE; runs]?;
        let mut classes = vec![in alloc; Class::Neither; on.marks.len()]?;
        self.keep_runs(on, &mut classes, &mut own);
        let kept = KeptRuns {
            on: *on,
            runs: &own,
        };
        let mut crossed = vec![in alloc; CrossScores::NONE; runs * runs]?;
        self.cross_runs(&kept, &mut classes, &mut crossed);
        let all = CrossedRuns {
            kept,
            crossed: &crossed,
        };
        let mut uses = vec![in alloc; Uses::NONE; runs]?;
        let sizes = list_pairs(alloc, &all, pairs, &mut uses)?;
        count_uses(alloc, &kept, &uses, counts)?;
        Ok(sizes)
    }
}
