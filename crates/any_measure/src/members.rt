use crate::any::AnyMeasure;
use desk_model::{Mark, MeasureName, Memory, Ranking};
use measure_core::{
    Cell, CellRoom, KeptCell, ListRoom, ListSizes, Measure, RunPair, Shift, Steps, TopicRankings,
};
use std::alloc::Global;
use std::sync::ledger::Ledger;
use topic_counts::Span;

impl Measure for AnyMeasure {
    ghost use Rattle.any_measure.specs.Any as any;

    ghost measured = { any.measured_by };

    ghost cell_of = { any.cell_by };

    ghost bounds_of = { any.bounds_by };

    fn name(&self) -> MeasureName {
        match self {
            AnyMeasure::Precision(m) => m.name(),
            AnyMeasure::Recall(m) => m.name(),
            AnyMeasure::RPrecision(m) => m.name(),
            AnyMeasure::Reciprocal(m) => m.name(),
            AnyMeasure::Biased(m) => m.name(),
            AnyMeasure::Average(m) => m.name(),
        }
    }

    fn unit(&self) -> i128 {
        match self {
            AnyMeasure::Precision(m) => m.unit(),
            AnyMeasure::Recall(m) => m.unit(),
            AnyMeasure::RPrecision(m) => m.unit(),
            AnyMeasure::Reciprocal(m) => m.unit(),
            AnyMeasure::Biased(m) => m.unit(),
            AnyMeasure::Average(m) => m.unit(),
        }
    }

    fn cell<L: Ledger>(
        &self,
        a: &Ranking,
        b: &Ranking,
        marks: &[Mark],
        steps: &mut Steps<L>,
    ) -> Cell {
        match self {
            AnyMeasure::Precision(m) => m.cell(a, b, marks, steps),
            AnyMeasure::Recall(m) => m.cell(a, b, marks, steps),
            AnyMeasure::RPrecision(m) => m.cell(a, b, marks, steps),
            AnyMeasure::Reciprocal(m) => m.cell(a, b, marks, steps),
            AnyMeasure::Biased(m) => m.cell(a, b, marks, steps),
            AnyMeasure::Average(m) => m.cell(a, b, marks, steps),
        }
    }

    fn cells<L: Ledger>(
        &self,
        rankings: &TopicRankings<'_>,
        marks: &[Mark],
        room: &mut CellRoom,
        cells: &mut [KeptCell],
        steps: &mut Steps<L>,
    ) {
        match self {
            AnyMeasure::Precision(m) => m.cells(rankings, marks, room, cells, steps),
            AnyMeasure::Recall(m) => m.cells(rankings, marks, room, cells, steps),
            AnyMeasure::RPrecision(m) => m.cells(rankings, marks, room, cells, steps),
            AnyMeasure::Reciprocal(m) => m.cells(rankings, marks, room, cells, steps),
            AnyMeasure::Biased(m) => m.cells(rankings, marks, room, cells, steps),
            AnyMeasure::Average(m) => m.cells(rankings, marks, room, cells, steps),
        }
    }

    fn bounds(&self, a: &Ranking, marks: &[Mark]) -> Span {
        match self {
            AnyMeasure::Precision(m) => m.bounds(a, marks),
            AnyMeasure::Recall(m) => m.bounds(a, marks),
            AnyMeasure::RPrecision(m) => m.bounds(a, marks),
            AnyMeasure::Reciprocal(m) => m.bounds(a, marks),
            AnyMeasure::Biased(m) => m.bounds(a, marks),
            AnyMeasure::Average(m) => m.bounds(a, marks),
        }
    }

    fn least_case(
        &self,
        alloc: Global,
        a: &Ranking,
        b: &Ranking,
        marks: &[Mark],
    ) -> Result<Vec<bool>, Memory> {
        match self {
            AnyMeasure::Precision(m) => m.least_case(alloc, a, b, marks),
            AnyMeasure::Recall(m) => m.least_case(alloc, a, b, marks),
            AnyMeasure::RPrecision(m) => m.least_case(alloc, a, b, marks),
            AnyMeasure::Reciprocal(m) => m.least_case(alloc, a, b, marks),
            AnyMeasure::Biased(m) => m.least_case(alloc, a, b, marks),
            AnyMeasure::Average(m) => m.least_case(alloc, a, b, marks),
        }
    }

    fn push_least_docs(
        &self,
        alloc: Global,
        a: &Ranking,
        b: &Ranking,
        marks: &[Mark],
        docs: &mut Vec<u32>,
    ) -> Result<(), Memory> {
        match self {
            AnyMeasure::Precision(m) => m.push_least_docs(alloc, a, b, marks, docs),
            AnyMeasure::Recall(m) => m.push_least_docs(alloc, a, b, marks, docs),
            AnyMeasure::RPrecision(m) => m.push_least_docs(alloc, a, b, marks, docs),
            AnyMeasure::Reciprocal(m) => m.push_least_docs(alloc, a, b, marks, docs),
            AnyMeasure::Biased(m) => m.push_least_docs(alloc, a, b, marks, docs),
            AnyMeasure::Average(m) => m.push_least_docs(alloc, a, b, marks, docs),
        }
    }

    fn push_both_docs(
        &self,
        alloc: Global,
        a: &Ranking,
        b: &Ranking,
        marks: &[Mark],
        least: &mut Vec<u32>,
        most: &mut Vec<u32>,
    ) -> Result<(), Memory> {
        match self {
            AnyMeasure::Precision(m) => m.push_both_docs(alloc, a, b, marks, least, most),
            AnyMeasure::Recall(m) => m.push_both_docs(alloc, a, b, marks, least, most),
            AnyMeasure::RPrecision(m) => m.push_both_docs(alloc, a, b, marks, least, most),
            AnyMeasure::Reciprocal(m) => m.push_both_docs(alloc, a, b, marks, least, most),
            AnyMeasure::Biased(m) => m.push_both_docs(alloc, a, b, marks, least, most),
            AnyMeasure::Average(m) => m.push_both_docs(alloc, a, b, marks, least, most),
        }
    }

    fn count_lists(
        &self,
        alloc: Global,
        a: &Ranking,
        b: &Ranking,
        marks: &[Mark],
        room: &mut ListRoom,
        counts: &mut [u32],
    ) -> Result<ListSizes, Memory> {
        match self {
            AnyMeasure::Precision(m) => m.count_lists(alloc, a, b, marks, room, counts),
            AnyMeasure::Recall(m) => m.count_lists(alloc, a, b, marks, room, counts),
            AnyMeasure::RPrecision(m) => m.count_lists(alloc, a, b, marks, room, counts),
            AnyMeasure::Reciprocal(m) => m.count_lists(alloc, a, b, marks, room, counts),
            AnyMeasure::Biased(m) => m.count_lists(alloc, a, b, marks, room, counts),
            AnyMeasure::Average(m) => m.count_lists(alloc, a, b, marks, room, counts),
        }
    }

    fn count_pairs(
        &self,
        alloc: Global,
        rankings: &TopicRankings<'_>,
        marks: &[Mark],
        pairs: &[RunPair],
        counts: &mut [u32],
    ) -> Result<Vec<ListSizes>, Memory> {
        match self {
            AnyMeasure::Precision(m) => m.count_pairs(alloc, rankings, marks, pairs, counts),
            AnyMeasure::Recall(m) => m.count_pairs(alloc, rankings, marks, pairs, counts),
            AnyMeasure::RPrecision(m) => m.count_pairs(alloc, rankings, marks, pairs, counts),
            AnyMeasure::Reciprocal(m) => m.count_pairs(alloc, rankings, marks, pairs, counts),
            AnyMeasure::Biased(m) => m.count_pairs(alloc, rankings, marks, pairs, counts),
            AnyMeasure::Average(m) => m.count_pairs(alloc, rankings, marks, pairs, counts),
        }
    }

    fn weight(&self, a: &Ranking, b: &Ranking, marks: &[Mark], doc: u32) -> u128 {
        match self {
            AnyMeasure::Precision(m) => m.weight(a, b, marks, doc),
            AnyMeasure::Recall(m) => m.weight(a, b, marks, doc),
            AnyMeasure::RPrecision(m) => m.weight(a, b, marks, doc),
            AnyMeasure::Reciprocal(m) => m.weight(a, b, marks, doc),
            AnyMeasure::Biased(m) => m.weight(a, b, marks, doc),
            AnyMeasure::Average(m) => m.weight(a, b, marks, doc),
        }
    }

    fn shift_weights(
        &self,
        a: &Ranking,
        b: &Ranking,
        marks: &[Mark],
        shift: Shift,
        totals: &mut [u128],
    ) {
        match self {
            AnyMeasure::Precision(m) => m.shift_weights(a, b, marks, shift, totals),
            AnyMeasure::Recall(m) => m.shift_weights(a, b, marks, shift, totals),
            AnyMeasure::RPrecision(m) => m.shift_weights(a, b, marks, shift, totals),
            AnyMeasure::Reciprocal(m) => m.shift_weights(a, b, marks, shift, totals),
            AnyMeasure::Biased(m) => m.shift_weights(a, b, marks, shift, totals),
            AnyMeasure::Average(m) => m.shift_weights(a, b, marks, shift, totals),
        }
    }

    ghost laws = { any.laws };
}
