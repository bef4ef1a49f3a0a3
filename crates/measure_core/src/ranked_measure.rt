ghost use Rattle.std.proofs.Props.{props};
ghost use Rattle.std.specs.Prelude.{◌≡◌, ℕ, List};
ghost use Rattle.desk_model.specs.declared.types.Mark.{Mark as M};
ghost use Rattle.measure_core.specs.Laws.{AreMet, CellIsModest};
ghost use Rattle.measure_core.specs.declared.cell.Cell.{Cell as C};
ghost use Rattle.measure_core.specs.declared.room.RunWeights.{RunWeights as W};
ghost use Rattle.measure_core.specs.Bits.{AreBitsIn};
ghost use Rattle.measure_core.specs.Ranks.{AreRanksIn, AreTopicCounts};

use crate::marked::MarkedRun;
use crate::{Cell, RunSums, RunWeights};
use desk_model::{Mark, Ranking};
use topic_counts::counts::Counts;

/// The weights of two runs.
#[derive(Clone, Copy, PartialEq, Eq)]
pub struct KeptWeights {
    pub first: RunWeights,
    pub second: RunWeights,
}

/// The sums of two runs.
#[derive(Clone, Copy)]
pub struct KeptSums<'k> {
    pub first: &'k RunSums,
    pub second: &'k RunSums,
}

/// What is kept of two runs.
#[derive(Clone, Copy)]
pub struct KeptPair<'k> {
    pub weights: KeptWeights,
    pub sums: KeptSums<'k>,
}

/// Two runs of a topic with the marks of its documents, what is set apart of the first of them for each document, and
/// the counts of all documents.
#[derive(Clone, Copy)]
pub struct SetApart<'a, 'b, 'm, 'f> {
    pub a: &'a Ranking,
    pub b: &'b Ranking,
    pub marks: &'m [Mark],
    /// A bit for each, set where the first run has it and it may be relevant, as it is judged relevant or
    /// unjudged: bit `d % 64` of number `d / 64`, counted from 0 at the lowest, for document `d`.
    pub bits: &'f [u64],
    /// Its rank in the first run, from 1, and 0 for none.
    pub ranks: &'f [u32],
    /// The counts of all documents of the topic.
    pub all: Counts,
    pub ghost met: { AreMet marks.now a.now b.now } by { Prim.hlevel props },
    pub ghost set_bits: { AreBitsIn a.now marks.now bits.now } by { Prim.hlevel props },
    pub ghost set_ranks: { AreRanksIn marks.now a.now ranks.now } by { Prim.hlevel props },
    pub ghost topic: { AreTopicCounts marks.now all } by { Prim.hlevel props },
}

/// A measure whose cells are told by the bits and the ranks of the first run's documents, one pass over the second
/// run's, and what is kept of each run.
pub trait RankedMeasure {
    /// What `ranked_cell` answers.
    ghost ranked_cell_of: { Self → List M → List ℕ → List ℕ → C };

    /// What `run_weights` answers.
    ghost weights_of: { Self → List M → List ℕ → W };

    /// What `run_sums` answers: whether these are the sums of a run.
    ghost are_sums: { Self → List M → List ℕ → List ℕ → Type 0 };

    /// The weights of a run's documents, which are kept for all its pairs on a topic.
    fn run_weights(&self, marked: &MarkedRun) -> RunWeights
        ensures { result ≡ weights_of self.now marked.now.marks.now marked.now.run.now };

    /// The sums over a run's documents, which are kept for all its pairs on a topic.
    fn run_sums(&self, marked: &MarkedRun) -> RunSums
        ensures { are_sums self.now marked.now.marks.now marked.now.run.now result.numbers };

    /// The cell of two rankings, by what is set apart of the first and kept of both.
    fn ranked_cell(&self, apart: &SetApart, kept: KeptPair<'_>) -> Cell
        requires first { kept.weights.first ≡
            weights_of self.now apart.now.marks.now apart.now.a.now }
        requires second { kept.weights.second ≡
            weights_of self.now apart.now.marks.now apart.now.b.now }
        requires first_sums { are_sums self.now apart.now.marks.now apart.now.a.now
            kept.sums.first.now.numbers }
        requires second_sums { are_sums self.now apart.now.marks.now apart.now.b.now
            kept.sums.second.now.numbers }
        ensures cell { result ≡
            ranked_cell_of self.now apart.now.marks.now apart.now.a.now apart.now.b.now }
        ensures modest { CellIsModest result };
}
