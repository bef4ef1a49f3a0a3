// What a table keeps of a topic.
ghost use Rattle.std.specs.Prelude.{◌≡◌, ◌+◌, All, length, IfOk};
ghost use Rattle.desk_model.specs.Pairs.{pairs_of};
ghost use Rattle.measure_core.specs.Laws.{SpanIsModest};
ghost use Rattle.pair_table.specs.Sums.{run_numbers};
ghost use Rattle.pair_table.specs.Kept.{AreTopicNumbers, IsCellOf};
ghost use Rattle.pair_table.specs.TopicUnder.{numbers_of};
ghost use Rattle.measure_core.specs.Laws.{swapped_cell};

use crate::marked_topic::MarkedTopic;
use crate::numbers::{evaluate_bounds, evaluate_cells};
use crate::two_runs::{PairPlace, TwoRuns};
use desk_model::Desk;
use measure_core::{Cell, CellRoom, KeptCell, Measure, Steps};
use std::alloc::{AllocError, Global};
use std::marker::Model;
use std::sync::ledger::Ledger;
use topic_counts::Span;

/// The cell of each pair of runs on a topic, in pair order, and the bounds of each run.
#[derive(Drop)]
pub struct KeptTopic {
    cells: Vec<KeptCell>,
    bounds: Vec<Span>,
}

impl Model for KeptTopic {
    ghost use Rattle.std.specs.Prelude.{length};
    ghost use Rattle.pair_table.specs.Kept.{TopicNumbers, AreTopicNumbers};

    ghost Value = { TopicNumbers };

    ghost view = { λ t. record { cells = t.cells.items; bounds = t.bounds.items } };

    ghost invariant = { λ t. AreTopicNumbers (length t.bounds.items) (record { cells = t.cells.items; bounds = t.bounds.items }) };
}

const NO_CELL: KeptCell = KeptCell {
    least_lo: 0,
    least_hi: 0,
    most_lo: 0,
    most_hi: 0,
};

const NO_BOUNDS: Span = Span { lo: 0, hi: 0 };

/// The cell of two swapped runs.
fn swapped(cell: &KeptCell) -> Cell
    ensures { result ≡ swapped_cell cell.now }
{
    let cell = cell.cell();
    Cell {
        least: cell.most.negate(),
        most: cell.least.negate(),
    }
}

impl KeptTopic {
    /// Room for the numbers of the pairs and runs of a desk.
    pub fn new(alloc: Global, desk: &Desk) -> Result<KeptTopic, AllocError>
        ensures { IfOk result (λ kept. length kept.bounds ≡ length desk.now.runs) }
    {
        let runs = desk.run_count();
        let pairs = runs * (runs - 1) / 2;
        let cells = vec![in alloc; NO_CELL; pairs as usize]?;
        let bounds = vec![in alloc; NO_BOUNDS; runs as usize]?;
        Ok(KeptTopic { cells, bounds })
    }

    /// Evaluates the cells and bounds of a topic, in a room whose contents are anything. It is one step for each pair.
    pub fn evaluate<M: Measure, L: Ledger>(
        &mut self,
        measure: &M,
        topic: &MarkedTopic<'_>,
        room: &mut CellRoom,
        steps: &mut Steps<L>,
    )
        requires { length self.old.bounds ≡ length topic.now.desk.runs }
        ensures numbers { self.new ≡
            numbers_of (M.cell_of measure.now) (M.bounds_of measure.now) topic.now }
        ensures sizes { AreTopicNumbers (length topic.now.desk.runs) self.new }
        ensures steps { steps.new ≡ steps.old +
            length (pairs_of (run_numbers (length topic.now.desk.runs))) }
    {
        evaluate_cells(&mut self.cells, measure, topic, room, steps);
        evaluate_bounds(&mut self.bounds, measure, topic);
    }

    /// The cell of each pair, in pair order.
    pub fn cells(&self) -> &[KeptCell]
        ensures cells { result.now ≡ self.now.cells }
        ensures count { length result.now ≡
            length (pairs_of (run_numbers (length self.now.bounds))) }
    {
        &self.cells
    }

    /// The bounds of each run, in run order.
    pub fn bounds(&self) -> &[Span]
        ensures bounds { result.now ≡ self.now.bounds }
        ensures modest { All SpanIsModest result.now }
    {
        &self.bounds
    }

    /// The cell of two runs. That of (j, i) is that of (i, j) swapped.
    pub fn cell_of(&self, pair: TwoRuns) -> Cell
        requires { length self.now.bounds ≡ pair.runs }
        ensures { IsCellOf pair.runs pair.first pair.second result self.now }
    {
        match pair.place() {
            PairPlace::InOrder(place) => self.cells[place as usize].cell(),
            PairPlace::Swapped(place) => swapped(&self.cells[place as usize]),
        }
    }
}
