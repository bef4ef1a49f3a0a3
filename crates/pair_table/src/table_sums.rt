//! The sums of a table and its verdicts, which need none of its cells once they are added.
ghost use Rattle.std.specs.Prelude.{◌≡◌, ◌≢◌, ◌+◌, ◌*◌, ◌<◌, ◌≤◌, All, length, map, slice_get, slice_set, Some, IfOk, OnOk, OnErr};
ghost use Rattle.desk_model.specs.Desk.{AreMarksOf, topics_under, pair_count};
ghost use Rattle.desk_model.specs.Limits.{RUN_LIMIT};
ghost use Rattle.desk_model.specs.Pairs.{pairs_of};
ghost use Rattle.desk_model.specs.Verdict.{verdict};
ghost use Rattle.desk_model.specs.declared.types.Totals.{Totals as Sums};
ghost use Rattle.topic_counts.specs.Ends.{IsShort};
ghost use Rattle.pair_table.specs.Sums.{run_numbers, all_pair_sums, all_run_sums};
ghost use Rattle.pair_table.specs.Kept.{AreModestTotals, AreSumsFor, AreSumsOf, IsKeptTable, SumsStandFor, all_numbers, kept_sums};
ghost use Rattle.pair_table.specs.TopicUnder.{numbers_of};

use crate::kept::KeptTopic;
use crate::marked_topic::MarkedTopic;
use crate::sums::KeptSums;
use crate::topics::{most_documents, renew_topic};
use crate::two_runs::TwoRuns;
use desk_model::{Desk, Marks, Memory, Rows, Totals, Verdict, verdict_of};
use measure_core::{CellRoom, Measure, Steps};
use std::alloc::{AllocError, Global};
use std::marker::Model;
use std::sync::ledger::Ledger;
use topic_counts::Span;

/// The sums over all topics of the cells of all pairs of runs of a desk and of the bounds of all runs, in units of a
/// measure, and the verdict of each pair. It keeps no cell.
///
/// Runs are numbered from 0. Pairs are in the order (0, 1), (0, 2), .. up to the last two runs.
#[derive(Drop)]
pub struct TableSums<M: Measure> {
    measure: M,
    runs: u32,
    sums: KeptSums,
    verdicts: Vec<Verdict>,
}

impl<M: Measure> Model for TableSums<M> {
    ghost use Rattle.pair_table.specs.Kept.{HeldSums, AreHeldSums};

    ghost Value = { HeldSums M };

    ghost view = { λ t. record { measure = t.measure; runs = t.runs; totals = t.sums.totals; bounds = t.sums.bounds } };

    ghost invariant = { λ t. AreHeldSums t.runs t.sums t.verdicts.items };
}

fn fill_verdicts(verdicts: &mut [Verdict], totals: &[Totals])
    requires { length verdicts.old ≡ length totals.now }
    ensures { verdicts.new ≡ map verdict totals.now }
{
    for place in 0..totals.len() {
        verdicts[place] = verdict_of(&totals[place]);
    }
}

/// Room for the verdicts of the pairs of a desk.
pub fn verdict_room(alloc: Global, desk: &Desk) -> Result<Vec<Verdict>, AllocError>
    ensures { IfOk result (λ room. length room.items ≡
        length (pairs_of (run_numbers (length desk.now.runs)))) }
{
    let runs = desk.run_count();
    let pairs = runs * (runs - 1) / 2;
    let room = vec![in alloc; Verdict::Close; pairs as usize]?;
    Ok(room)
}

// The sums of the numbers of each topic, which are evaluated one after the other in the room of one. It is one step for
// each pair and topic, and none where memory runs out.
fn topic_sums<M: Measure, L: Ledger>(
    alloc: Global,
    desk: &Desk,
    marks: &Rows,
    measure: &M,
    steps: &mut Steps<L>,
) -> Result<KeptSums, AllocError>
    requires { AreMarksOf desk.now marks.now }
    ensures sums { IfOk result (λ sums. sums ≡ kept_sums (length desk.now.runs)
        (all_numbers (M.cell_of measure.now) (M.bounds_of measure.now) desk.now marks.now)) }
    ensures size { IfOk result (AreSumsFor (length desk.now.runs)) }
    ensures steps { OnOk result (steps.new ≡ steps.old +
        length (pairs_of (run_numbers (length desk.now.runs))) * length desk.now.topics) }
    ensures no_steps { OnErr result (steps.new ≡ steps.old) }
{
    let mut kept = KeptTopic::new(alloc, desk)?;
    let mut sums = KeptSums::new(alloc, desk)?;
    let mut room = CellRoom::new(alloc, most_documents(desk), desk.run_count())?;
    for number in 0..desk.topic_count() {
        let topic = MarkedTopic::of(desk, marks, number);
        kept.evaluate(measure, &topic, &mut room, steps);
        sums.add(&kept);
    }
    Ok(sums)
}

impl<M: Measure> TableSums<M> {
    /// The sums of the table of a measure over a desk and its marks. It is one step for each pair and topic, and where
    /// memory runs out it is none. The cells of one topic are there at a time.
    ///
    /// # Errors
    /// `Memory`: out of memory.
    pub fn new<L: Ledger>(
        alloc: Global,
        desk: &Desk,
        marks: &Marks,
        measure: M,
        steps: &mut Steps<L>,
    ) -> Result<TableSums<M>, Memory>
        requires { AreMarksOf desk.now marks.now.rows }
        ensures measure { IfOk result (λ sums. sums.measure ≡ measure) }
        ensures runs { IfOk result (λ sums. sums.runs ≡ length desk.now.runs) }
        ensures totals { IfOk result (λ sums. sums.totals ≡
            all_pair_sums (M.cell_of measure) (topics_under desk.now marks.now.rows)
            (length desk.now.runs)) }
        ensures pairs { IfOk result (λ sums. length sums.totals ≡
            length (pairs_of desk.now.runs)) }
        ensures bounds { IfOk result (λ sums. sums.bounds ≡
            all_run_sums (M.bounds_of measure) (topics_under desk.now marks.now.rows)
            (length desk.now.runs)) }
        ensures stands { IfOk result
            (SumsStandFor (M.cell_of measure) (M.bounds_of measure) desk.now marks.now.rows) }
        ensures steps { OnOk result (steps.new ≡ steps.old + pair_count (length desk.now.runs) *
            length desk.now.topics) }
        ensures no_steps { OnErr result (steps.new ≡ steps.old) }
    {
        // The laws speak of measures that have a name.
        let _name = measure.name();
        let room = verdict_room(alloc, desk)?;
        let sums = topic_sums(alloc, desk, marks.rows(), &measure, steps)?;
        Ok(TableSums::of_sums(measure, desk.run_count(), sums, room))
    }

    /// These sums of so many runs, with their verdicts in a room for as many.
    pub(crate) fn of_sums(
        measure: M,
        runs: u32,
        sums: KeptSums,
        mut room: Vec<Verdict>,
    ) -> TableSums<M>
        requires sums { AreSumsFor runs sums }
        requires room { length room.items ≡ length sums.totals }
        ensures { result ≡ record {
          measure = measure;
          runs = runs;
          totals = sums.totals;
          bounds = sums.bounds;
        } }
    {
        fill_verdicts(&mut room, sums.totals());
        TableSums {
            measure,
            runs,
            sums,
            verdicts: room,
        }
    }

    /// Evaluates the numbers of one topic anew, in a room whose contents are anything, and makes the sums those with
    /// its new numbers. It is one step for each pair.
    pub(crate) fn renew<L: Ledger>(
        &mut self,
        topics: &mut [KeptTopic],
        topic: &MarkedTopic<'_>,
        room: &mut CellRoom,
        steps: &mut Steps<L>,
    )
        requires runs { self.old.runs ≡ length topic.now.desk.runs }
        requires count { length topics.old ≡ length topic.now.desk.topics }
        requires kept { IsKeptTable topics.old self.old }
        ensures measure { self.new.measure ≡ self.old.measure }
        ensures runs { self.new.runs ≡ self.old.runs }
        ensures topics { topics.new ≡
            slice_set topics.old topic.now.number
            (numbers_of (M.cell_of self.old.measure) (M.bounds_of self.old.measure) topic.now) }
        ensures kept { IsKeptTable topics.new self.new }
        ensures steps { steps.new ≡ steps.old +
            length (pairs_of (run_numbers (length topic.now.desk.runs))) }
    {
        renew_topic(topics, &mut self.sums, &self.measure, topic, room, steps);
        fill_verdicts(&mut self.verdicts, self.sums.totals());
    }

    /// The verdict of two different runs, of the first on the second.
    pub fn verdict(&self, i: u32, j: u32) -> Verdict
        requires different { i ≢ j }
        requires first { i < self.now.runs }
        requires second { j < self.now.runs }
        ensures { (sums : Sums) × AreSumsOf self.now.runs self.now.totals i j sums ×
            (result ≡ verdict sums) }
    {
        verdict_of(&self.totals(i, j))
    }

    /// The sums of two different runs. Those of (j, i) are those of (i, j) swapped: least and greatest change places, and each end is negated.
    pub fn totals(&self, i: u32, j: u32) -> Totals
        requires different { i ≢ j }
        requires first { i < self.now.runs }
        requires second { j < self.now.runs }
        ensures { AreSumsOf self.now.runs self.now.totals i j result }
    {
        let pair = TwoRuns {
            runs: self.runs,
            first: i,
            second: j,
        };
        pair.sums_in(self.sums.totals())
    }

    /// The verdict of each pair, in pair order.
    pub fn verdicts(&self) -> &[Verdict]
        ensures { result.now ≡ map verdict self.now.totals }
    {
        &self.verdicts
    }

    /// The sums of each pair, in pair order.
    pub fn all_totals(&self) -> &[Totals]
        ensures totals { result.now ≡ self.now.totals }
        ensures count { length result.now ≡ length (pairs_of (run_numbers self.now.runs)) }
        ensures near { All AreModestTotals result.now }
    {
        self.sums.totals()
    }

    /// The sums of a run's bounds.
    pub fn run_bounds(&self, i: u32) -> Span
        requires { i < self.now.runs }
        ensures bounds { slice_get self.now.bounds i ≡ Some result }
        ensures near { IsShort result }
    {
        self.sums.bounds()[i as usize]
    }

    /// The sums of each run's bounds, in run order.
    pub fn all_bounds(&self) -> &[Span]
        ensures bounds { result.now ≡ self.now.bounds }
        ensures count { length result.now ≡ self.now.runs }
        ensures near { All IsShort result.now }
    {
        self.sums.bounds()
    }

    /// The measure of the sums.
    pub fn measure(&self) -> &M
        ensures { result.now ≡ self.now.measure }
    {
        &self.measure
    }

    /// How many runs there are.
    pub fn runs(&self) -> u32
        ensures runs { result ≡ self.now.runs }
        ensures few { result ≤ RUN_LIMIT }
    {
        self.runs
    }
}
