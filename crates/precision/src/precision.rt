ghost use Rattle.std.specs.Prelude.{◌≡◌, ◌≤◌, length, IfOk};
ghost use Rattle.desk_model.specs.Limits.{DEPTH_LIMIT, DOCUMENT_LIMIT};
ghost use Rattle.desk_model.specs.Completion.{with_picked};
ghost use Rattle.desk_model.specs.Ranking.{IsRanking};
ghost use Rattle.desk_model.specs.Extremes.{AreBounds};
ghost use Rattle.desk_model.specs.MeasureText.{IsMeasure};
ghost use Rattle.desk_model.specs.declared.types.MeasureName.TheVariants.{Precision as P};
ghost use Rattle.measure_laws.specs.Prefixes.{only_second};
ghost use Rattle.measure_core.specs.Laws.{AreValues};
ghost use Rattle.measure_core.specs.Made.{IsMadeFor};

use crate::own::cell_between;
use desk_model::{Mark, MeasureName, Memory, Ranking};
use marked_lists::push_own;
use measure_core::{
    Cell, CellRoom, KeptCell, MarkedPair, MarkedRankings, Measure, Picks, Shift, Steps,
    TopicRankings, case_values, own_cells, shift_one_side,
};
use std::alloc::Global;
use std::marker::Model;
use std::sync::ledger::Ledger;
use topic_counts::Span;
use topic_counts::counts::{is_among_first, own_counts, prefix_documents};

/// The measure `P_k`, for a k from 1 to 10,000. Its unit is k: what it answers are numbers of
/// documents.
#[derive(Drop)]
pub struct Precision {
    pub(crate) k: u32,
}

impl Model for Precision {
    ghost use Rattle.std.specs.Prelude.{ℕ, ◌≤◌};
    ghost use Rattle.desk_model.specs.Limits.{DEPTH_LIMIT};

    ghost Value = { ℕ };

    ghost view = { λ p. p.k };

    ghost invariant = { λ p. (1 ≤ p.k) × (p.k ≤ DEPTH_LIMIT) };
}

impl Precision {
    /// The measure `P_k`, whose cells and bounds are the floors and ceilings of the extremes.
    pub fn new(k: u32) -> Precision
        requires positive { 1 ≤ k }
        requires limited { k ≤ DEPTH_LIMIT }
        ensures depth { result ≡ k }
        ensures made { IsMadeFor (P k) (⟦<Precision as Measure>⟧.measured result)
            (⟦<Precision as Measure>⟧.cell_of result) (⟦<Precision as Measure>⟧.bounds_of result) }
    {
        Precision { k }
    }

    /// k times the least and the greatest score of a run, over every completion of the marks.
    fn range(&self, run: &Ranking, marks: &[Mark]) -> (i64, i64)
        requires { IsRanking (length marks.now) run.now }
        ensures bounds { AreBounds (P self.now) self.now marks.now run.now result.0 result.1 }
        ensures depth { IsMeasure (P self.now) }
    {
        let prefix = prefix_documents(self.k, run, marks);
        (prefix.least(), prefix.most())
    }
}

/// The documents of the second run's first k that the first run's first k lack.
#[derive(Clone, Copy)]
struct SecondAlone<'a> {
    k: u32,
    first: &'a Ranking,
    second: &'a Ranking,
}

impl Picks for SecondAlone<'_> {
    ghost use Rattle.measure_laws.specs.Prefixes.{only_second};

    ghost picks = { λ p. only_second p.k p.first.now p.second.now };

    fn is_picked(&self, doc: u32) -> bool {
        is_among_first(self.k, self.second, doc) && !is_among_first(self.k, self.first, doc)
    }
}

impl Measure for Precision {
    ghost use Rattle.desk_model.specs.declared.types.MeasureName.TheVariants.{Precision as P};
    ghost use Rattle.measure_core.specs.Numbers.{exact_cell, exact_bounds};
    ghost use Rattle.precision.specs.Laws as laws;

    ghost measured = { λ k. P k };

    ghost cell_of = { λ k. exact_cell (P k) };

    ghost bounds_of = { λ k. exact_bounds (P k) };

    fn name(&self) -> MeasureName {
        MeasureName::Precision(self.k)
    }

    fn unit(&self) -> i128 {
        i128::from(self.k)
    }

    fn cell<L: Ledger>(
        &self,
        a: &Ranking,
        b: &Ranking,
        marks: &[Mark],
        steps: &mut Steps<L>,
    ) -> Cell {
        steps.tick();
        cell_between(own_counts(self.k, a, b, marks))
    }

    fn cells<L: Ledger>(
        &self,
        rankings: &TopicRankings<'_>,
        marks: &[Mark],
        room: &mut CellRoom,
        cells: &mut [KeptCell],
        steps: &mut Steps<L>,
    ) {
        if own_cells(
            self,
            &MarkedRankings { rankings, marks },
            room,
            cells,
            steps,
        ) {
            return;
        }
        self.each_cell(rankings, marks, cells, steps);
    }

    fn bounds(&self, a: &Ranking, marks: &[Mark]) -> Span {
        let (lo, hi) = self.range(a, marks);
        Span {
            lo: i128::from(lo),
            hi: i128::from(hi),
        }
    }

    fn least_case(
        &self,
        alloc: Global,
        a: &Ranking,
        b: &Ranking,
        marks: &[Mark],
    ) -> Result<Vec<bool>, Memory> {
        let picks = SecondAlone {
            k: self.k,
            first: a,
            second: b,
        };
        case_values(alloc, &picks, marks)
    }

    fn push_least_docs(
        &self,
        _alloc: Global,
        a: &Ranking,
        b: &Ranking,
        marks: &[Mark],
        docs: &mut Vec<u32>,
    ) -> Result<(), Memory> {
        push_own(self.k, &MarkedPair { a, b, marks }, docs)
    }

    fn weight(&self, a: &Ranking, b: &Ranking, _marks: &[Mark], doc: u32) -> u128 {
        let one_alone = is_among_first(self.k, a, doc) != is_among_first(self.k, b, doc);
        u128::from(one_alone)
    }

    fn shift_weights(
        &self,
        a: &Ranking,
        b: &Ranking,
        _marks: &[Mark],
        shift: Shift,
        totals: &mut [u128],
    ) {
        shift_one_side(self.k, a, b, shift, totals);
    }

    ghost laws = { laws.laws };
}
