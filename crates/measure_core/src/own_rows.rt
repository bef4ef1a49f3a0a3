ghost use Rattle.std.specs.Prelude.{◌≡◌, ◌+◌, ◌≤◌, true, false, All, length, take};
ghost use Rattle.desk_model.specs.Pairs.{pairs_of};
ghost use Rattle.measure_core.specs.Laws.{CellIsModest};
ghost use Rattle.measure_core.specs.Pairs.{pair_cells, run_numbers, runs_on};
ghost use Rattle.topic_counts.specs.Seen.{AreMarksIn};
ghost use Rattle.measure_core.specs.Told.{AreRunCounts};

use crate::marked::{MarkedRankings, MarkedRun};
use crate::own_measure::OwnMeasure;
use crate::{CellRoom, KeptCell, Steps};
use desk_model::{Mark, PairPlaces};
use std::sync::ledger::Ledger;
use topic_counts::counts::{Counts, prefix_documents};
use topic_counts::marked::{mark_first, own_by_marks};
use topic_counts::topic::all_documents;

/// Counts the first k documents of each run.
fn count_runs(k: u32, on: &MarkedRankings, counts: &mut [Counts])
    requires { runs_on on.now.rankings.now ≤ length counts.old }
    ensures counts { AreRunCounts k on.now.marks.now on.now.rankings.now counts.new }
    ensures count { length counts.new ≡ length counts.old }
{
    for run in 0..on.rankings.runs() {
        counts[run as usize] = prefix_documents(k, on.rankings.ranking(run), on.marks);
    }
}

/// Makes `seen` the marks of the first k documents of a run, where it is a new one; else they are that already.
fn see_first(k: u32, is_new: bool, first: &MarkedRun, seen: &mut [Mark])
    requires { length first.now.marks.now ≤ length seen.old }
    ensures seen { (is_new ≡ false →
        AreMarksIn (take k first.now.run.now) first.now.marks.now seen.old) →
        AreMarksIn (take k first.now.run.now) first.now.marks.now seen.new }
    ensures count { length seen.new ≡ length seen.old }
{
    if is_new {
        mark_first(k, first.run, first.marks, seen);
    }
}

/// Finds the cells of all pairs of runs on a topic, in pair order, and answers whether the room is great
/// enough for the topic; where it is not, nothing changes. It is one step for each pair, and takes no
/// memory.
///
/// Each run's first k documents are counted once. For each first run its marks are set apart, and each
/// later run adds up those of its own first k documents among them.
pub fn own_cells<O: OwnMeasure, L: Ledger>(
    measure: &O,
    on: &MarkedRankings,
    room: &mut CellRoom,
    cells: &mut [KeptCell],
    steps: &mut Steps<L>,
) -> bool
    requires { length cells.old ≡
        length (pairs_of (run_numbers (runs_on on.now.rankings.now))) }
    ensures cells { result ≡ true →
        cells.new ≡ pair_cells (O.own_cell_of measure.now on.now.marks.now) on.now.rankings.now }
    ensures modest { result ≡ true → All CellIsModest cells.new }
    ensures steps { result ≡ true → steps.new ≡ steps.old + length cells.old }
    ensures too_small { result ≡ false → (cells.new ≡ cells.old) × (steps.new ≡ steps.old) }
{
    let marks = on.marks;
    let rankings = on.rankings;
    let runs = rankings.runs();
    let seen: &mut [Mark] = &mut room.marks;
    let counts: &mut [Counts] = &mut room.counts;
    if marks.len() > seen.len() || runs as usize > counts.len() {
        return false;
    }
    let k = measure.depth();
    count_runs(k, on, counts);
    let all = all_documents(marks);
    let mut at = PairPlaces::START;
    for place in 0..cells.len() {
        let a = rankings.ranking(at.first);
        let b = rankings.ranking(at.second);
        let is_new = at.first + 1 == at.second;
        see_first(k, is_new, &MarkedRun { run: a, marks }, seen);
        let first = counts[at.first as usize];
        let second = counts[at.second as usize];
        let own = own_by_marks(k, first, second, b, seen);
        cells[place] = KeptCell::of(measure.own_cell(own, all));
        steps.tick();
        at = at.next(runs);
    }
    true
}
