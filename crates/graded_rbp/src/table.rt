ghost use Rattle.std.specs.Prelude.{◌≡◌, ◌≢◌, ℕ, ◌+◌, ◌*◌, ◌<◌, ◌≤◌, All, length, slice_get, [], pos, Some, IfOk, OnOk};
ghost use Rattle.desk_model.specs.Desk.{pair_count};
ghost use Rattle.desk_model.specs.Limits.{CELL_LIMIT};
ghost use Rattle.desk_model.specs.MeasureText.{IsMeasure};
ghost use Rattle.desk_model.specs.Pairs.{pairs_of};
ghost use Rattle.desk_model.specs.Verdict.{totals_of, verdict};
ghost use Rattle.desk_model.specs.declared.types.Totals.{Totals as Sums};
ghost use Rattle.topic_counts.specs.Ends.{IsShort};
ghost use Rattle.pair_table.specs.Kept.{AreModestTotals, AreSumsOf};
ghost use Rattle.pair_table.specs.Sums.{run_numbers};
ghost use Rattle.graded_rbp.specs.Kept.{StandsByGrades};
ghost use Rattle.graded_rbp.specs.Score.{GradedMeasure, IsBiased, GREATEST_LIMIT, binary};

use crate::level::level_sums;
use crate::sums::{add_bounds, add_totals};
use desk_model::{Desk, MeasureName, Memory, Totals, Verdict, verdict_of};
use measure_core::{Maker, Measure, Steps};
use pair_table::TwoRuns;
use std::alloc::{AllocError, Global};
use std::marker::{Model, PhantomData};
use std::sync::ledger::Ledger;
use topic_counts::Span;

/// The sums of all pairs of runs of a desk and the bounds of all runs by grades, in parts of which the greatest number
/// times 10^18 make a score of 1. They are those of one table of rank-biased precision for each level, added up.
///
/// Runs are numbered from 0. Pairs are in the order (0, 1), (0, 2), .. up to the last two runs.
#[derive(Drop)]
pub struct GradedTable<M: Measure> {
    runs: u32,
    totals: Vec<Totals>,
    bounds: Vec<Span>,
    // The sums of a level are given back once they are added.
    of: PhantomData<M>,
}

impl<M: Measure> Model for GradedTable<M> {
    ghost use Rattle.graded_rbp.specs.Kept.{KeptByGrades, IsKeptByGrades};

    ghost Value = { KeptByGrades };

    ghost view = { λ t. record { runs = t.runs; totals = t.totals.items; bounds = t.bounds.items } };

    ghost invariant = { λ t. IsKeptByGrades t.runs t.totals.items t.bounds.items };
}

const NO_SUMS: Totals = Totals {
    least_lo: 0,
    least_hi: 0,
    most_lo: 0,
    most_hi: 0,
};

const NO_BOUNDS: Span = Span { lo: 0, hi: 0 };

/// Room for the sums of so many pairs, and for the bounds of so many runs.
fn sum_rooms(alloc: Global, pairs: u32, runs: u32) -> Result<(Vec<Totals>, Vec<Span>), AllocError>
    ensures totals { IfOk result (λ rooms. (length rooms.0.items ≡ pairs) ×
        All (λ sums. sums ≡ totals_of []) rooms.0.items) }
    ensures bounds { IfOk result (λ rooms. (length rooms.1.items ≡ runs) ×
        All (λ sums. sums ≡ record { lo = pos 0; hi = pos 0 }) rooms.1.items) }
{
    let totals = vec![in alloc; NO_SUMS; pairs as usize]?;
    let bounds = vec![in alloc; NO_BOUNDS; runs as usize]?;
    Ok((totals, bounds))
}

impl<M: Measure> GradedTable<M> {
    /// The table of a desk by the grades of its judgements file. `greatest`, from 1 to 10, is the number whose gain is 1,
    /// and the measure is rank-biased precision. Pairs times topics times `greatest` are at most 10,000,000. It is one
    /// step for each pair, topic and level. Where memory runs out, the levels that are done are counted.
    ///
    /// # Errors
    /// `Memory`: out of memory.
    pub fn new<P: Maker<Made = M>, L: Ledger>(
        alloc: Global,
        desk: &Desk,
        greatest: u32,
        measure: MeasureName,
        maker: &P,
        steps: &mut Steps<L>,
    ) -> Result<GradedTable<M>, Memory>
        requires measure { IsMeasure measure }
        requires biased { IsBiased measure }
        requires some { 1 ≤ greatest }
        requires few { greatest ≤ GREATEST_LIMIT }
        requires cells { pair_count (length desk.now.runs) * length desk.now.topics * greatest ≤
            CELL_LIMIT }
        ensures table { IfOk result (λ table. (m : GradedMeasure) → measure ≡ binary m →
            m.greatest ≡ greatest → StandsByGrades m desk.now table) }
        ensures steps { OnOk result (steps.new ≡ steps.old + pair_count (length desk.now.runs) *
            length desk.now.topics * greatest) }
        ensures few_steps { steps.new ≤ steps.old + pair_count (length desk.now.runs) *
            length desk.now.topics * greatest }
    {
        let runs = desk.run_count();
        let (mut totals, mut bounds) = sum_rooms(alloc, runs * (runs - 1) / 2, runs)?;
        for done in 0..greatest {
            let sums = level_sums(alloc, desk, done + 1, measure, maker, steps)?;
            add_totals(&mut totals, sums.all_totals());
            add_bounds(&mut bounds, sums.all_bounds());
        }
        Ok(GradedTable {
            runs,
            totals,
            bounds,
            of: PhantomData,
        })
    }

    /// The sums of two different runs. Those of (j, i) are those of (i, j) swapped: least and greatest change places, and
    /// each end is negated. It takes no memory.
    pub fn totals(&self, i: u32, j: u32) -> Totals
        requires different { i ≢ j }
        requires first { i < self.now.runs }
        requires second { j < self.now.runs }
        ensures { AreSumsOf self.now.runs self.now.totals i j result }
    {
        let pair = TwoRuns {
            runs: self.runs,
            first: i,
            second: j,
        };
        pair.sums_in(&self.totals)
    }

    /// The verdict of two different runs, of the first on the second. It takes no memory.
    pub fn verdict(&self, i: u32, j: u32) -> Verdict
        requires different { i ≢ j }
        requires first { i < self.now.runs }
        requires second { j < self.now.runs }
        ensures { (sums : Sums) × AreSumsOf self.now.runs self.now.totals i j sums ×
            (result ≡ verdict sums) }
    {
        verdict_of(&self.totals(i, j))
    }

    /// The bounds of a run. It takes no memory.
    pub fn run_bounds(&self, i: u32) -> Span
        requires { i < self.now.runs }
        ensures bounds { slice_get self.now.bounds i ≡ Some result }
        ensures near { IsShort result }
    {
        self.bounds[i as usize]
    }

    /// The sums of each pair, in pair order.
    pub fn all_totals(&self) -> &[Totals]
        ensures totals { result.now ≡ self.now.totals }
        ensures count { length result.now ≡ length (pairs_of (run_numbers self.now.runs)) }
        ensures near { All AreModestTotals result.now }
    {
        &self.totals
    }

    /// The bounds of each run, in run order.
    pub fn all_bounds(&self) -> &[Span]
        ensures bounds { result.now ≡ self.now.bounds }
        ensures count { length result.now ≡ self.now.runs }
        ensures near { All IsShort result.now }
    {
        &self.bounds
    }
}
