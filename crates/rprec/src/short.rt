//! R-precision on a topic where no run has more documents than are judged relevant. A run's first ones are then all that
//! it has, however many more of the topic's documents come to be relevant, so the documents that each of two runs alone
//! has tell their cell.
ghost use Rattle.std.specs.Prelude.{◌≡◌, ℕ, ◌+◌, ◌<◌, ◌≤◌, ◌⊎◌, true, false, All, length};
ghost use Rattle.desk_model.specs.Pairs.{pairs_of};
ghost use Rattle.desk_model.specs.declared.types.MeasureName.TheVariants.{RPrecision as R};
ghost use Rattle.measure_core.specs.Laws.{CellIsModest};
ghost use Rattle.measure_core.specs.Numbers.{exact_cell};
ghost use Rattle.measure_core.specs.Pairs.{pair_cells, ranking_on, run_numbers, runs_on};
ghost use Rattle.rprec.specs.Greedy.{AreFew, best_beyond as beyond, candidate};
ghost use Rattle.rprec.specs.Short.{HasNoLongerRun};

use crate::greedy::{Small, best_beyond, greedy_choice};
use crate::prefixes::Prefixes;
use crate::spans::span;
use measure_core::{
    Cell, CellRoom, KeptCell, MarkedRankings, OwnMeasure, Steps, TopicRankings, own_cells,
};
use std::sync::ledger::Ledger;
use topic_counts::Span;
use topic_counts::counts::{Counts, OwnCounts};
use topic_counts::topic::all_documents;

/// R-precision on a topic with so many documents judged relevant, where no run has more documents.
#[derive(Clone, Copy)]
pub struct ShortLists {
    pub relevant: u32,
    pub ghost some: { 0 < relevant },
}

/// What is answered of a topic with another number of documents judged relevant, of which nobody asks.
const ZERO: Cell = Cell {
    least: Span { lo: 0, hi: 0 },
    most: Span { lo: 0, hi: 0 },
};

/// The least candidate of two runs that have no documents beyond the counted ones.
fn least_of_all(prefixes: Prefixes, all: Counts) -> Small
    requires { AreFew prefixes all }
    ensures { result.candidate ≡ beyond prefixes all 0 (candidate prefixes all 0) }
{
    let judged = greedy_choice(prefixes, 0, all);
    best_beyond(prefixes, 0, all, judged)
}

impl OwnMeasure for ShortLists {
    ghost use Rattle.rprec.specs.Short.{short_cell};

    ghost depth_of = { λ lists. lists.relevant };

    ghost own_cell_of = { λ lists. short_cell lists.relevant };

    fn depth(&self) -> u32 {
        self.relevant
    }

    fn own_cell(&self, own: OwnCounts, all: Counts) -> Cell {
        if all.relevant != self.relevant {
            return ZERO;
        }
        let prefixes = Prefixes {
            first: own.first,
            second: own.second,
        };
        Cell {
            least: span(least_of_all(prefixes, all)),
            most: span(least_of_all(prefixes.swapped(), all)).negate(),
        }
    }
}

/// Whether no run has more than so many documents on a topic.
fn are_short(rankings: &TopicRankings, most: u32) -> bool
    ensures short { result ≡ true → HasNoLongerRun most rankings.now }
    ensures long { result ≡ false → (run : ℕ) × ((run < runs_on rankings.now) ×
        (most < length (ranking_on rankings.now run))) }
{
    for run in 0..rankings.runs() {
        if rankings.ranking(run).docs().len() > most as usize {
            return false;
        }
    }
    true
}

/// Finds the cells of all pairs of runs on a topic, in pair order, and answers whether some of its documents are judged
/// relevant, no run has more documents than that, and the room is great enough; if not, nothing changes. It is one step
/// for each pair, and takes no memory.
pub fn short_cells<L: Ledger>(
    on: &MarkedRankings,
    room: &mut CellRoom,
    cells: &mut [KeptCell],
    steps: &mut Steps<L>,
) -> bool
    requires { length cells.old ≡
        length (pairs_of (run_numbers (runs_on on.now.rankings.now))) }
    ensures cells { result ≡ true →
        cells.new ≡ pair_cells (exact_cell R on.now.marks.now) on.now.rankings.now }
    ensures modest { result ≡ true → All CellIsModest cells.new }
    ensures steps { result ≡ true → steps.new ≡ steps.old + length cells.old }
    ensures unchanged { result ≡ false → (cells.new ≡ cells.old) × (steps.new ≡ steps.old) }
{
    let relevant = all_documents(on.marks).relevant;
    if relevant == 0 || !are_short(on.rankings, relevant) {
        return false;
    }
    own_cells(&ShortLists { relevant }, on, room, cells, steps)
}
