ghost use Rattle.std.specs.Prelude.{◌≡◌, ◌+◌, ◌*◌, ◌<◌, ◌≤◌, true, false, All, length, slice_index_or};
ghost use Rattle.desk_model.specs.Pairs.{pairs_of};
ghost use Rattle.desk_model.specs.Ranking.{IsRanking};
ghost use Rattle.measure_core.specs.Laws.{CellIsModest};
ghost use Rattle.measure_core.specs.declared.room.RunSums.{RunSums as S};
ghost use Rattle.measure_core.specs.declared.room.RunWeights.{RunWeights as W};
ghost use Rattle.measure_core.specs.Pairs.{pair_cells, run_numbers, runs_on};
ghost use Rattle.measure_core.specs.Bits.{AreBitsIn};
ghost use Rattle.measure_core.specs.Ranks.{AreRanks, AreRunSums, AreRunWeights};

use crate::bits::set_bits;
use crate::marked::{MarkedRankings, MarkedRun};
use crate::ranked_measure::{KeptPair, KeptSums, KeptWeights, RankedMeasure, SetApart};
use crate::{CellRoom, KeptCell, RunSums, RunWeights, Steps};
use desk_model::{PairPlaces, Ranking};
use std::sync::ledger::Ledger;
use topic_counts::topic::all_documents;

/// Makes `ranks` the rank of each document of a ranking, from 1, and of all other documents 0.
pub fn place_ranks(ranking: &Ranking, ranks: &mut [u32])
    requires { IsRanking (length ranks.old) ranking.now }
    ensures ranks { AreRanks ranking.now ranks.new }
    ensures count { length ranks.new ≡ length ranks.old }
{
    ranks.fill(0);
    for place in ranking.by_doc() {
        ranks[place.doc as usize] = place.rank;
    }
}

/// Finds the weights and the sums of each run.
fn weigh_runs<R: RankedMeasure>(
    measure: &R,
    on: &MarkedRankings,
    weights: &mut [RunWeights],
    sums: &mut [RunSums],
)
    requires weights { runs_on on.now.rankings.now ≤ length weights.old }
    requires sums { runs_on on.now.rankings.now ≤ length sums.old }
    ensures weights { AreRunWeights (R.weights_of measure.now on.now.marks.now) on.now.rankings.now
        weights.new }
    ensures sums { AreRunSums (R.are_sums measure.now on.now.marks.now) on.now.rankings.now sums.new }
    ensures as_many_weights { length weights.new ≡ length weights.old }
    ensures as_many_sums { length sums.new ≡ length sums.old }
{
    for run in 0..on.rankings.runs() {
        let marked = MarkedRun {
            run: on.rankings.ranking(run),
            marks: on.marks,
        };
        weights[run as usize] = measure.run_weights(&marked);
        sums[run as usize] = measure.run_sums(&marked);
    }
}

/// Makes `bits` and `ranks` those of a run, where it is a new one; else they are that already.
fn set_apart(is_new: bool, run: &MarkedRun, bits: &mut [u64], ranks: &mut [u32])
    requires bits { length run.now.marks.now ≤ 64 * length bits.old }
    requires ranks { length run.now.marks.now ≤ length ranks.old }
    ensures bits { (is_new ≡ false → AreBitsIn run.now.run.now run.now.marks.now bits.old) →
        AreBitsIn run.now.run.now run.now.marks.now bits.new }
    ensures ranks { (is_new ≡ false → AreRanks run.now.run.now ranks.old) →
        AreRanks run.now.run.now ranks.new }
    ensures bits_count { length bits.new ≡ length bits.old }
    ensures ranks_count { length ranks.new ≡ length ranks.old }
{
    if is_new {
        set_bits(run, bits);
        place_ranks(run.run, ranks);
    }
}

/// What is kept of the two runs of a pair.
fn kept_pair<'k>(weights: &[RunWeights], sums: &'k [RunSums], at: PairPlaces) -> KeptPair<'k>
    requires order { at.first < at.second }
    requires weights { at.second < length weights.now }
    requires sums { at.second < length sums.now }
    ensures first { (none : W) → result.weights.first ≡ slice_index_or weights.now at.first none }
    ensures second { (none : W) →
        result.weights.second ≡ slice_index_or weights.now at.second none }
    ensures first_sums { (none : S) →
        result.sums.first.now ≡ slice_index_or sums.now at.first none }
    ensures second_sums { (none : S) →
        result.sums.second.now ≡ slice_index_or sums.now at.second none }
{
    KeptPair {
        weights: KeptWeights {
            first: weights[at.first as usize],
            second: weights[at.second as usize],
        },
        sums: KeptSums {
            first: &sums[at.first as usize],
            second: &sums[at.second as usize],
        },
    }
}

/// Finds the cells of all pairs of runs on a topic, in pair order, and answers whether the room is great
/// enough for the topic; where it is not, nothing changes. It is one step for each pair, and takes no
/// memory.
///
/// The weights and the sums of each run are found once. For each first run the bits and the ranks of its
/// documents are set apart, and each later run goes over its own documents by them.
pub fn ranked_cells<R: RankedMeasure, L: Ledger>(
    measure: &R,
    on: &MarkedRankings,
    room: &mut CellRoom,
    cells: &mut [KeptCell],
    steps: &mut Steps<L>,
) -> bool
    requires { length cells.old ≡
        length (pairs_of (run_numbers (runs_on on.now.rankings.now))) }
    ensures cells { result ≡ true →
        cells.new ≡ pair_cells (R.ranked_cell_of measure.now on.now.marks.now) on.now.rankings.now }
    ensures modest { result ≡ true → All CellIsModest cells.new }
    ensures steps { result ≡ true → steps.new ≡ steps.old + length cells.old }
    ensures too_small { result ≡ false → (cells.new ≡ cells.old) × (steps.new ≡ steps.old) }
{
    let marks = on.marks;
    let rankings = on.rankings;
    let runs = rankings.runs();
    let bits: &mut [u64] = &mut room.bits;
    let ranks: &mut [u32] = &mut room.ranks;
    let weights: &mut [RunWeights] = &mut room.weights;
    let sums: &mut [RunSums] = &mut room.sums;
    if marks.len() / 64 >= bits.len()
        || marks.len() > ranks.len()
        || runs as usize > weights.len()
        || runs as usize > sums.len()
    {
        return false;
    }
    weigh_runs(measure, on, weights, sums);
    let all = all_documents(marks);
    let mut at = PairPlaces::START;
    for place in 0..cells.len() {
        let a = rankings.ranking(at.first);
        let b = rankings.ranking(at.second);
        let is_new = at.first + 1 == at.second;
        set_apart(is_new, &MarkedRun { run: a, marks }, bits, ranks);
        let apart = SetApart {
            a,
            b,
            marks,
            bits,
            ranks,
            all,
        };
        let kept = kept_pair(weights, sums, at);
        cells[place] = KeptCell::of(measure.ranked_cell(&apart, kept));
        steps.tick();
        at = at.next(runs);
    }
    true
}
