ghost use Rattle.std.specs.Prelude.{◌≡◌, ◌≢◌, ◌+◌, ◌*◌, ◌<◌, All, length, map, slice_get, Some, IfOk, OnOk, OnErr};
ghost use Rattle.std.specs.List.{AllZip};
ghost use Rattle.desk_model.specs.Desk.{AreMarksOf, topics_under, pair_count};
ghost use Rattle.desk_model.specs.Pairs.{pairs_of};
ghost use Rattle.desk_model.specs.Verdict.{verdict};
ghost use Rattle.desk_model.specs.declared.types.Totals.{Totals as Sums};
ghost use Rattle.topic_counts.specs.Ends.{IsShort};
ghost use Rattle.pair_table.specs.Sums.{run_numbers, all_pair_sums, all_run_sums};
ghost use Rattle.pair_table.specs.Kept.{TopicNumbers, IsCellOf, StandsFor, StandsElsewhere, AreSumsOf, AreModestTotals, table_sums};

use crate::kept::KeptTopic;
use crate::marked_topic::MarkedTopic;
use crate::sums::KeptSums;
use crate::table_sums::{TableSums, verdict_room};
use crate::topics::{evaluate_topics, most_documents, topic_rooms};
use crate::two_runs::TwoRuns;
use desk_model::{Desk, Marks, Memory, Totals, Verdict};
use measure_core::{Cell, CellRoom, Measure, Steps};
use std::alloc::Global;
use std::marker::Model;
use std::sync::ledger::Ledger;
use topic_counts::Span;

/// The cells of all pairs of runs of a desk on each topic and the bounds of all runs, with their sums over
/// all topics, in units of a measure. A change of marks in one topic costs the cells of that topic.
///
/// Runs are numbered from 0. Pairs are in the order (0, 1), (0, 2), .. up to the last two runs.
#[derive(Drop)]
pub struct Table<M: Measure> {
    topics: Vec<KeptTopic>,
    sums: TableSums<M>,
    // What the measure finds the cells of a topic in.
    room: CellRoom,
}

impl<M: Measure> Model for Table<M> {
    ghost use Rattle.pair_table.specs.Kept.{Kept, IsKeptTable};

    ghost Value = { Kept M };

    ghost view = { λ t. record { measure = t.sums.measure; runs = t.sums.runs; topics = t.topics.items; totals = t.sums.totals; bounds = t.sums.bounds } };

    ghost invariant = { λ t. IsKeptTable t.topics.items t.sums };
}

impl<M: Measure> Table<M> {
    /// The table of a measure over a desk and its marks. It is one step for each pair and topic, and
    /// where memory runs out it is none.
    pub fn new<L: Ledger>(
        alloc: Global,
        desk: &Desk,
        marks: &Marks,
        measure: M,
        steps: &mut Steps<L>,
    ) -> Result<Table<M>, Memory>
        requires { AreMarksOf desk.now marks.now.rows }
        ensures measure { IfOk result (λ table. table.measure ≡ measure) }
        ensures runs { IfOk result (λ table. table.runs ≡ length desk.now.runs) }
        ensures totals { IfOk result (λ table. table.totals ≡
            all_pair_sums (M.cell_of measure) (topics_under desk.now marks.now.rows)
            (length desk.now.runs)) }
        ensures pairs { IfOk result (λ table. length table.totals ≡
            length (pairs_of desk.now.runs)) }
        ensures bounds { IfOk result (λ table. table.bounds ≡
            all_run_sums (M.bounds_of measure) (topics_under desk.now marks.now.rows)
            (length desk.now.runs)) }
        ensures stands { IfOk result
            (StandsFor (M.cell_of measure) (M.bounds_of measure) desk.now marks.now.rows) }
        ensures steps { OnOk result (steps.new ≡ steps.old + pair_count (length desk.now.runs) *
            length desk.now.topics) }
        ensures no_steps { OnErr result (steps.new ≡ steps.old) }
    {
        // The laws speak of measures that have a name.
        let _name = measure.name();
        let rows = marks.rows();
        let mut topics = topic_rooms(alloc, desk)?;
        let mut sums = KeptSums::new(alloc, desk)?;
        let verdicts = verdict_room(alloc, desk)?;
        let runs = desk.run_count();
        let mut room = CellRoom::new(alloc, most_documents(desk), runs)?;
        evaluate_topics(&mut topics, &measure, desk, rows, &mut room, steps);
        sums.add_topics(&topics, runs);
        let sums = TableSums::of_sums(measure, runs, sums, verdicts);
        Ok(Table { topics, sums, room })
    }

    /// Takes over new marks of one topic, by its number: the table is as one that is made anew for the desk
    /// and these marks. It is one step for each pair, and takes no memory.
    ///
    /// The desk is that of the table, and all that the table keeps of every other topic is already that of
    /// these marks.
    pub fn change<L: Ledger>(
        &mut self,
        desk: &Desk,
        marks: &Marks,
        topic: u32,
        steps: &mut Steps<L>,
    )
        requires marks { AreMarksOf desk.now marks.now.rows }
        requires topic { topic < length desk.now.topics }
        requires others { StandsElsewhere (M.cell_of self.old.measure)
            (M.bounds_of self.old.measure) desk.now marks.now.rows topic self.old }
        ensures measure { self.new.measure ≡ self.old.measure }
        ensures stands { StandsFor (M.cell_of self.old.measure) (M.bounds_of self.old.measure)
            desk.now marks.now.rows self.new }
        ensures steps { steps.new ≡ steps.old + pair_count (length desk.now.runs) }
    {
        // The laws speak of measures that have a name.
        let measure = self.sums.measure();
        let _name = measure.name();
        let topic = MarkedTopic::of(desk, marks.rows(), topic);
        self.sums
            .renew(&mut self.topics, &topic, &mut self.room, steps);
    }

    /// The cells of two different runs, one for each topic. Those of (j, i) are those of (i, j) swapped.
    pub fn cells(&self, alloc: Global, pair: TwoRuns) -> Result<Vec<Cell>, Memory>
        requires { pair.runs ≡ self.now.runs }
        ensures { IfOk result (λ cells.
            AllZip (IsCellOf pair.runs pair.first pair.second) cells.items self.now.topics) }
    {
        let mut cells = Vec::new(alloc);
        for topic in 0..self.topics.len() {
            let kept = &self.topics[topic];
            cells.push(kept.cell_of(pair))?;
        }
        Ok(cells)
    }

    /// The kept cell of two different runs on a topic, by the topic's number from 0. That of (j, i) is that of (i, j)
    /// swapped. It takes no memory.
    pub fn cell(&self, i: u32, j: u32, topic: u32) -> Cell
        requires different { i ≢ j }
        requires first { i < self.now.runs }
        requires second { j < self.now.runs }
        requires topic { topic < length self.now.topics }
        ensures { (kept : TopicNumbers) × (slice_get self.now.topics topic ≡ Some kept) ×
            IsCellOf self.now.runs i j result kept }
    {
        let pair = TwoRuns {
            runs: self.sums.runs(),
            first: i,
            second: j,
        };
        let kept = &self.topics[topic as usize];
        kept.cell_of(pair)
    }

    /// The verdict of two different runs, of the first on the second.
    pub fn verdict(&self, i: u32, j: u32) -> Verdict
        requires different { i ≢ j }
        requires first { i < self.now.runs }
        requires second { j < self.now.runs }
        ensures { (sums : Sums) × AreSumsOf self.now.runs self.now.totals i j sums ×
            (result ≡ verdict sums) }
    {
        self.sums.verdict(i, j)
    }

    /// The sums of two different runs. Those of (j, i) are those of (i, j) swapped: least and greatest change places, and each end is negated.
    pub fn totals(&self, i: u32, j: u32) -> Totals
        requires different { i ≢ j }
        requires first { i < self.now.runs }
        requires second { j < self.now.runs }
        ensures { AreSumsOf self.now.runs self.now.totals i j result }
    {
        self.sums.totals(i, j)
    }

    /// The verdict of each pair, in pair order.
    pub fn verdicts(&self) -> &[Verdict]
        ensures { result.now ≡ map verdict self.now.totals }
    {
        self.sums.verdicts()
    }

    /// The sums of each pair, in pair order.
    pub fn all_totals(&self) -> &[Totals]
        ensures totals { result.now ≡ self.now.totals }
        ensures count { length result.now ≡ length (pairs_of (run_numbers self.now.runs)) }
        ensures near { All AreModestTotals result.now }
    {
        self.sums.all_totals()
    }

    /// The sums of a run's bounds.
    pub fn run_bounds(&self, i: u32) -> Span
        requires { i < self.now.runs }
        ensures bounds { slice_get self.now.bounds i ≡ Some result }
        ensures near { IsShort result }
    {
        self.sums.run_bounds(i)
    }

    /// The sums of each run's bounds, in run order.
    pub fn all_bounds(&self) -> &[Span]
        ensures bounds { result.now ≡ self.now.bounds }
        ensures count { length result.now ≡ self.now.runs }
        ensures near { All IsShort result.now }
    {
        self.sums.all_bounds()
    }

    /// The measure of the table.
    pub fn measure(&self) -> &M
        ensures { result.now ≡ self.now.measure }
    {
        self.sums.measure()
    }

    /// The sums of the table alone, with its verdicts.
    pub fn sums(&self) -> &TableSums<M>
        ensures { result.now ≡ table_sums self.now }
    {
        &self.sums
    }
}
