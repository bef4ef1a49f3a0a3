ghost use Rattle.std.specs.Prelude.{◌≡◌, ℕ, ◌+◌, ◌≤◌, ◌++◌, List, length, IfOk, OnOk};
ghost use Rattle.desk_model.specs.Limits.{DOCUMENT_LIMIT};
ghost use Rattle.desk_model.specs.Ranking.{IsRanking};
ghost use Rattle.desk_model.specs.declared.types.Mark.{Mark as M};
ghost use Rattle.desk_model.specs.declared.types.MeasureName.TheVariants.{RPrecision as R};
ghost use Rattle.measure_laws.specs.RprecCase.{rprec_truth};
ghost use Rattle.measure_core.specs.Laws.{AreValues};
ghost use Rattle.measure_core.specs.Lists.{added_documents};
ghost use Rattle.measure_core.specs.Made.{IsMadeFor};
ghost use Rattle.measure_core.specs.Numbers.{exact_least, exact_cell};
ghost use Rattle.rprec.specs.Greedy.{AreTopic, IsLeast};
ghost use Rattle.rprec.specs.Picks.{IsLeastCase};
ghost use Rattle.rprec.specs.Blocks.{AreBlockSums};

use crate::extremes::Cases;
use crate::known::{KnownPair, SummedPair};
use crate::lists::push_chosen;
use crate::pair_lists::{count_by_sums, count_cases};
use crate::prefixes::MarkedDocs;
use crate::room::{PairFinding, find};
use crate::short::short_cells;
use crate::spans::UNIT;
use crate::sums::sums_of_run;
use crate::values::{LeastCase, values};
use desk_model::{Mark, MeasureName, Memory, Placed, Ranking};
use measure_core::{
    Cell, CellRoom, KeptCell, KeptPair, ListRoom, ListSizes, MarkedPair, MarkedRankings, MarkedRun,
    Measure, RankedMeasure, RunPair, RunSums, RunWeights, SetApart, Shift, Steps, TopicRankings,
    ranked_cells, shift_one_side,
};
use std::alloc::Global;
use std::sync::ledger::Ledger;
use topic_counts::Span;
use topic_counts::counts::{Counts, is_among_first};
use topic_counts::topic::all_documents;

/// The measure `Rprec`. Its unit is 10^18.
#[derive(Drop)]
pub struct Rprec;

impl Rprec {
    /// The measure, whose cells and bounds are the floors and ceilings of the extremes.
    pub fn new() -> Rprec
        ensures { IsMadeFor R (⟦<Rprec as Measure>⟧.measured result)
            (⟦<Rprec as Measure>⟧.cell_of result) (⟦<Rprec as Measure>⟧.bounds_of result) }
    {
        Rprec
    }
}

/// The counts of all documents of a topic.
fn topic(marks: &[Mark]) -> Counts
    requires { length marks.now ≤ DOCUMENT_LIMIT }
    ensures topic { AreTopic marks.now result }
    ensures few { result.relevant + result.unjudged ≤ DOCUMENT_LIMIT }
{
    all_documents(marks)
}

/// The sums of a run.
fn sums_of(run: &Ranking, marks: &[Mark]) -> RunSums
    requires { IsRanking (length marks.now) run.now }
    ensures { AreBlockSums marks.now run.now result.numbers }
{
    sums_of_run(&MarkedDocs {
        docs: run.docs(),
        marks,
    })
}

/// What is to be found of two runs, by walks over the documents of both.
fn find_between<F: PairFinding>(pair: &MarkedPair) -> F
    ensures { F.is_of result pair.now.marks.now pair.now.a.now pair.now.b.now }
{
    let marks = pair.marks;
    let first = sums_of(pair.a, marks);
    let second = sums_of(pair.b, marks);
    find(&KnownPair {
        a: pair.a.docs(),
        b: pair.b.docs(),
        marks,
        first_places: pair.a.by_doc(),
        second_places: pair.b.by_doc(),
        ranks: None,
        first: &first,
        second: &second,
        all: topic(marks),
    })
}

/// Whether each document is relevant in the least case of two runs.
fn least_values(alloc: Global, pair: &MarkedPair) -> Result<Vec<bool>, Memory>
    ensures { IfOk result (λ values.
        AreValues (rprec_truth pair.now.marks.now pair.now.a.now pair.now.b.now)
        (length pair.now.marks.now) values.items) }
{
    let least: LeastCase = find_between(pair);
    values(alloc, least.wanted, least.count, pair.a, pair.b, pair.marks)
}

/// Appends the unjudged documents that the least case of two runs makes relevant, ascending.
fn push_least(alloc: Global, pair: &MarkedPair, docs: &mut Vec<u32>) -> Result<(), Memory>
    ensures { OnOk result (docs.new.items ≡ docs.old.items ++
        added_documents pair.now.marks.now
        (rprec_truth pair.now.marks.now pair.now.a.now pair.now.b.now)) }
{
    let least: LeastCase = find_between(pair);
    push_chosen(alloc, least.count, least.wanted, pair, docs)
}

/// Appends the unjudged documents that the least cases of two runs and of the swapped runs make relevant, each ascending.
fn push_cases(
    alloc: Global,
    pair: &MarkedPair,
    least: &mut Vec<u32>,
    most: &mut Vec<u32>,
) -> Result<(), Memory>
    ensures least { OnOk result (least.new.items ≡ least.old.items ++
        added_documents pair.now.marks.now
        (rprec_truth pair.now.marks.now pair.now.a.now pair.now.b.now)) }
    ensures most { OnOk result (most.new.items ≡ most.old.items ++
        added_documents pair.now.marks.now
        (rprec_truth pair.now.marks.now pair.now.b.now pair.now.a.now)) }
{
    let cases: Cases = find_between(pair);
    let low = cases.least;
    push_chosen(alloc, low.count, low.wanted, pair, least)?;
    let high = cases.most;
    let swapped = MarkedPair {
        a: pair.b,
        b: pair.a,
        marks: pair.marks,
    };
    push_chosen(alloc, high.count, high.wanted, &swapped, most)
}

impl RankedMeasure for Rprec {
    ghost use Rattle.desk_model.specs.declared.types.MeasureName.TheVariants.{RPrecision as R};
    ghost use Rattle.measure_core.specs.Numbers.{exact_cell};
    ghost use Rattle.rprec.specs.Sums.{AreBlockSums};

    ghost ranked_cell_of = { λ _. exact_cell R };

    ghost are_sums = { λ _. AreBlockSums };

    ghost weights_of = { λ _ _ _. record { relevant_low = 0; relevant_high = 0; possible_low = 0; possible_high = 0 } };

    fn run_weights(&self, _marked: &MarkedRun) -> RunWeights {
        RunWeights::NONE
    }

    fn run_sums(&self, marked: &MarkedRun) -> RunSums {
        sums_of(marked.run, marked.marks)
    }

    fn ranked_cell(&self, apart: &SetApart, kept: KeptPair<'_>) -> Cell {
        find(&KnownPair {
            a: apart.a.docs(),
            b: apart.b.docs(),
            marks: apart.marks,
            first_places: apart.a.by_doc(),
            second_places: apart.b.by_doc(),
            ranks: Some(apart.ranks),
            first: kept.sums.first,
            second: kept.sums.second,
            all: apart.all,
        })
    }
}

impl Measure for Rprec {
    ghost use Rattle.desk_model.specs.declared.types.MeasureName.TheVariants.{RPrecision as R};
    ghost use Rattle.measure_core.specs.Numbers.{exact_cell, exact_bounds};
    ghost use Rattle.rprec.specs.Laws as laws;

    ghost measured = { λ _. R };

    ghost cell_of = { λ _. exact_cell R };

    ghost bounds_of = { λ _. exact_bounds R };

    fn name(&self) -> MeasureName {
        MeasureName::RPrecision
    }

    fn unit(&self) -> i128 {
        i128::from(UNIT)
    }

    fn cell<L: Ledger>(
        &self,
        a: &Ranking,
        b: &Ranking,
        marks: &[Mark],
        steps: &mut Steps<L>,
    ) -> Cell {
        steps.tick();
        find_between(&MarkedPair { a, b, marks })
    }

    fn bounds(&self, a: &Ranking, marks: &[Mark]) -> Span {
        let nothing: &[u32] = &[];
        let no_places: &[Placed] = &[];
        let first = sums_of(a, marks);
        let second = sums_of_run(&MarkedDocs {
            docs: nothing,
            marks,
        });
        let cell: Cell = find(&KnownPair {
            a: a.docs(),
            b: nothing,
            marks,
            first_places: a.by_doc(),
            second_places: no_places,
            ranks: None,
            first: &first,
            second: &second,
            all: topic(marks),
        });
        Span {
            lo: cell.least.lo,
            hi: cell.most.hi,
        }
    }

    fn least_case(
        &self,
        alloc: Global,
        a: &Ranking,
        b: &Ranking,
        marks: &[Mark],
    ) -> Result<Vec<bool>, Memory> {
        least_values(alloc, &MarkedPair { a, b, marks })
    }

    fn push_least_docs(
        &self,
        alloc: Global,
        a: &Ranking,
        b: &Ranking,
        marks: &[Mark],
        docs: &mut Vec<u32>,
    ) -> Result<(), Memory> {
        push_least(alloc, &MarkedPair { a, b, marks }, docs)
    }

    fn push_both_docs(
        &self,
        alloc: Global,
        a: &Ranking,
        b: &Ranking,
        marks: &[Mark],
        least: &mut Vec<u32>,
        most: &mut Vec<u32>,
    ) -> Result<(), Memory> {
        push_cases(alloc, &MarkedPair { a, b, marks }, least, most)
    }

    fn count_lists(
        &self,
        _alloc: Global,
        a: &Ranking,
        b: &Ranking,
        marks: &[Mark],
        room: &mut ListRoom,
        counts: &mut [u32],
    ) -> Result<ListSizes, Memory> {
        let first = sums_of(a, marks);
        let second = sums_of(b, marks);
        let summed = SummedPair {
            a,
            b,
            marks,
            first: &first,
            second: &second,
        };
        Ok(count_cases(&summed, room, counts))
    }

    fn count_pairs(
        &self,
        alloc: Global,
        rankings: &TopicRankings<'_>,
        marks: &[Mark],
        pairs: &[RunPair],
        counts: &mut [u32],
    ) -> Result<Vec<ListSizes>, Memory> {
        count_by_sums(alloc, &MarkedRankings { rankings, marks }, pairs, counts)
    }

    fn weight(&self, a: &Ranking, b: &Ranking, marks: &[Mark], doc: u32) -> u128 {
        let depth = topic(marks).relevant.max(1);
        let one_alone = is_among_first(depth, a, doc) != is_among_first(depth, b, doc);
        u128::from(one_alone)
    }

    fn shift_weights(
        &self,
        a: &Ranking,
        b: &Ranking,
        marks: &[Mark],
        shift: Shift,
        totals: &mut [u128],
    ) {
        shift_one_side(topic(marks).relevant.max(1), a, b, shift, totals);
    }

    fn cells<L: Ledger>(
        &self,
        rankings: &TopicRankings<'_>,
        marks: &[Mark],
        room: &mut CellRoom,
        cells: &mut [KeptCell],
        steps: &mut Steps<L>,
    ) {
        let on = MarkedRankings { rankings, marks };
        if short_cells(&on, room, cells, steps) || ranked_cells(self, &on, room, cells, steps) {
            return;
        }
        self.each_cell(rankings, marks, cells, steps);
    }

    ghost laws = { λ _ _. laws.laws };
}
