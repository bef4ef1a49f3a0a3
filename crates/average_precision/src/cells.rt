//! The cells of all pairs of runs on a topic: each run's candidates are chosen once, and each run is passed once in the
//! candidates of each.
ghost use Rattle.std.specs.Prelude.{◌≡◌, ◌+◌, ◌*◌, ◌<◌, ◌≤◌, true, false, All, length};
ghost use Rattle.desk_model.specs.Pairs.{pairs_of};
ghost use Rattle.measure_core.specs.Laws.{CellIsModest};
ghost use Rattle.measure_core.specs.PairLists.{IsOfRuns};
ghost use Rattle.measure_core.specs.Pairs.{pair_cells, ranking_on, run_numbers, runs_on};
ghost use Rattle.average_precision.specs.Least.{IsLeast};
ghost use Rattle.average_precision.specs.Crossed.{AreAllCrossed, AreCrossedTo, place_of};
ghost use Rattle.average_precision.specs.Numbers.{average_cell};
ghost use Rattle.average_precision.specs.Pairs.{IsPairRun};
ghost use Rattle.average_precision.specs.Rooms.{AreRunsKept, IsKept};

use crate::average_precision::AveragePrecision;
use crate::kept::{KeptRuns, TopicRuns};
use crate::numbers::{PairRun, RunNumbers};
use crate::pair::{Leasts, cell_of, known_run, leasts_between, scores_in};
use desk_model::PairPlaces;
use measure_core::{CellRoom, Class, CrossScores, KeptCell, RunCandidates, RunPair, Steps};
use precision_candidates::classes::{KeptClasses, mark_run};
use precision_candidates::runs::ChosenRun;
use std::sync::ledger::Ledger;

/// What is kept of the runs of a topic, and of each two of them. Its facts: this is kept of each two.
#[derive(Clone, Copy)]
pub struct CrossedRuns<'k, 'd> {
    pub kept: KeptRuns<'k, 'd>,
    pub crossed: &'k [CrossScores],
    pub ghost room: { runs_on kept.on.rankings.now * runs_on kept.on.rankings.now ≤
        length crossed.now },
    pub ghost each: { AreAllCrossed kept.on.marks.now kept.on.rankings.now crossed.now },
}

impl CrossedRuns<'_, '_> {
    /// A run of a pair, by the numbers of both.
    fn pair_run(&self, run: u32, other: u32) -> PairRun
        requires run { run < runs_on self.now.kept.on.rankings.now }
        requires other { other < runs_on self.now.kept.on.rankings.now }
        ensures { IsPairRun self.now.kept.on.marks.now
            (ranking_on self.now.kept.on.rankings.now run)
            (ranking_on self.now.kept.on.rankings.now other) result }
    {
        let kept = self.kept.kept(run);
        let place = run as usize * self.kept.on.rankings.runs() as usize + other as usize;
        let numbers = RunNumbers {
            lo: kept.lo,
            hi: kept.hi,
            low_in_high: kept.low_in_high,
            high_in_low: kept.high_in_low,
        };
        PairRun {
            numbers,
            other: self.crossed[place],
        }
    }

    /// The ends of the least difference of two runs, and of the same runs swapped, with their cases.
    pub fn leasts(&self, pair: RunPair) -> Leasts
        requires { IsOfRuns (runs_on self.now.kept.on.rankings.now) pair }
        ensures least { IsLeast self.now.kept.on.marks.now
            (ranking_on self.now.kept.on.rankings.now pair.first)
            (ranking_on self.now.kept.on.rankings.now pair.second) result.least }
        ensures swapped { IsLeast self.now.kept.on.marks.now
            (ranking_on self.now.kept.on.rankings.now pair.second)
            (ranking_on self.now.kept.on.rankings.now pair.first) result.swapped }
    {
        let a = self.kept.on.rankings.ranking(pair.first).docs();
        let b = self.kept.on.rankings.ranking(pair.second).docs();
        let first = self.pair_run(pair.first, pair.second);
        let second = self.pair_run(pair.second, pair.first);
        leasts_between(a, b, first, second)
    }

    /// The cell of a pair.
    fn cell(&self, pair: RunPair) -> KeptCell
        requires { IsOfRuns (runs_on self.now.kept.on.rankings.now) pair }
        ensures cell { result ≡ average_cell self.now.kept.on.marks.now
            (ranking_on self.now.kept.on.rankings.now pair.first)
            (ranking_on self.now.kept.on.rankings.now pair.second) }
        ensures modest { CellIsModest result }
    {
        KeptCell::of(cell_of(self.leasts(pair)))
    }
}

/// The cells of all pairs of runs, by what is kept of each and of each two. It is one step for each.
fn fill_cells<L: Ledger>(runs: &CrossedRuns<'_, '_>, cells: &mut [KeptCell], steps: &mut Steps<L>)
    requires { length cells.old ≡
        length (pairs_of (run_numbers (runs_on runs.now.kept.on.rankings.now))) }
    ensures cells { cells.new ≡
        pair_cells (average_cell runs.now.kept.on.marks.now) runs.now.kept.on.rankings.now }
    ensures modest { All CellIsModest cells.new }
    ensures steps { steps.new ≡ steps.old + length cells.old }
{
    let count = runs.kept.on.rankings.runs();
    let mut at = PairPlaces::START;
    for place in 0..cells.len() {
        let pair = RunPair {
            first: at.first,
            second: at.second,
        };
        cells[place] = runs.cell(pair);
        steps.tick();
        at = at.next(count);
    }
}

impl AveragePrecision {
    /// Finds what is kept of each run. What the classes are before and after is anything.
    pub(crate) fn keep_runs(
        &self,
        on: &TopicRuns<'_, '_>,
        classes: &mut [Class],
        kept: &mut [RunCandidates],
    )
        requires long { length classes.old ≡ length on.now.marks.now }
        requires room { runs_on on.now.rankings.now ≤ length kept.old }
        ensures kept { AreRunsKept on.now.marks.now on.now.rankings.now kept.new }
        ensures count { length kept.new ≡ length kept.old }
        ensures long { length classes.new ≡ length on.now.marks.now }
    {
        for run in 0..on.rankings.runs() {
            let own = self.chosen_run(on.rankings.ranking(run), on.marks, on.all);
            kept[run as usize] = self.kept_run(&own, classes);
        }
    }

    /// What is kept of a run, whose classes are made.
    fn kept_run(&self, run: &ChosenRun<'_>, classes: &mut [Class]) -> RunCandidates
        requires { length classes.old ≡ length run.now.on.marks.now }
        ensures kept { IsKept run.now.on.marks.now run.now.on.docs.now result }
        ensures long { length classes.new ≡ length run.now.on.marks.now }
    {
        mark_run(run, classes);
        let own = KeptClasses { run: *run, classes };
        let numbers = known_run(&own, &self.parts);
        let documents = run.documents();
        RunCandidates {
            lo: numbers.lo,
            hi: numbers.hi,
            low_in_high: numbers.low_in_high,
            high_in_low: numbers.high_in_low,
            in_high: documents.in_high,
            in_low: documents.in_low,
            taken: run.chosen.high.count,
            left_out: run.chosen.low.count,
        }
    }

    /// Passes every run over the classes of one, which are made in a room.
    fn cross_run(
        &self,
        runs: &KeptRuns<'_, '_>,
        run: u32,
        classes: &mut [Class],
        scores: &mut [CrossScores],
    )
        requires within { run < runs_on runs.now.on.rankings.now }
        requires long { length classes.old ≡ length runs.now.on.marks.now }
        requires room { runs_on runs.now.on.rankings.now * runs_on runs.now.on.rankings.now ≤
            length scores.old }
        requires before { AreCrossedTo runs.now.on.marks.now runs.now.on.rankings.now
            (place_of runs.now.on.rankings.now run 0) scores.old }
        ensures after { AreCrossedTo runs.now.on.marks.now runs.now.on.rankings.now
            (place_of runs.now.on.rankings.now (run + 1) 0) scores.new }
        ensures count { length scores.new ≡ length scores.old }
        ensures long { length classes.new ≡ length runs.now.on.marks.now }
    {
        let chosen = runs.chosen(run);
        mark_run(&chosen, classes);
        let marked = KeptClasses {
            run: chosen,
            classes,
        };
        let count = runs.on.rankings.runs();
        let row = run as usize * count as usize;
        for other in 0..count {
            let docs = runs.on.rankings.ranking(other).docs();
            scores[row + other as usize] = scores_in(docs, &marked, &self.parts);
        }
    }

    /// Passes every run over the classes of each, which are made one after the other in one room.
    pub(crate) fn cross_runs(
        &self,
        runs: &KeptRuns<'_, '_>,
        classes: &mut [Class],
        scores: &mut [CrossScores],
    )
        requires long { length classes.old ≡ length runs.now.on.marks.now }
        requires room { runs_on runs.now.on.rankings.now * runs_on runs.now.on.rankings.now ≤
            length scores.old }
        ensures crossed { AreAllCrossed runs.now.on.marks.now runs.now.on.rankings.now scores.new }
        ensures count { length scores.new ≡ length scores.old }
    {
        for run in 0..runs.on.rankings.runs() {
            self.cross_run(runs, run, classes, scores);
        }
    }

    /// Finds the cells of all pairs of runs on a topic, in pair order, and answers whether the room is great enough for
    /// the topic; where it is not, nothing changes. It is one step for each pair, and takes no memory.
    pub(crate) fn room_cells<L: Ledger>(
        &self,
        on: &TopicRuns<'_, '_>,
        room: &mut CellRoom,
        cells: &mut [KeptCell],
        steps: &mut Steps<L>,
    ) -> bool
        requires { length cells.old ≡
            length (pairs_of (run_numbers (runs_on on.now.rankings.now))) }
        ensures cells { result ≡ true →
            cells.new ≡ pair_cells (average_cell on.now.marks.now) on.now.rankings.now }
        ensures modest { result ≡ true → All CellIsModest cells.new }
        ensures steps { result ≡ true → steps.new ≡ steps.old + length cells.old }
        ensures too_small { result ≡ false → (cells.new ≡ cells.old) × (steps.new ≡ steps.old) }
    {
        let classes: &mut [Class] = &mut room.classes;
        let runs: &mut [RunCandidates] = &mut room.candidates;
        let crossed: &mut [CrossScores] = &mut room.crossed;
        let documents = on.marks.len();
        let count = on.rankings.runs() as usize;
        let fits = documents <= classes.len()
            && count <= runs.len()
            && count * count <= crossed.len();
        if fits {
            self.keep_runs(on, &mut classes[..documents], runs);
            let kept = KeptRuns { on: *on, runs };
            self.cross_runs(&kept, &mut classes[..documents], crossed);
            fill_cells(&CrossedRuns { kept, crossed }, cells, steps);
        }
        fits
    }
}
