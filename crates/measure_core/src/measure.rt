ghost use Rattle.std.specs.Prelude.{◌≡◌, ℕ, ◌+◌, ◌<◌, ◌++◌, All, List, length, map, pos, IfOk, OnOk};
ghost use Rattle.desk_model.specs.declared.types.Mark.{Mark as M};
ghost use Rattle.desk_model.specs.declared.types.MeasureName.{MeasureName as N};
ghost use Rattle.desk_model.specs.MeasureText.{IsMeasure};
ghost use Rattle.desk_model.specs.Pairs.{pairs_of};
ghost use Rattle.measure_laws.specs.Measures.{unit_of};
ghost use Rattle.measure_laws.specs.Cases.{least_truth};
ghost use Rattle.measure_laws.specs.Weights.{weight_of};
ghost use Rattle.measure_core.specs.declared.cell.Cell.{Cell as C};
ghost use Rattle.topic_counts.specs.declared.span.Span.{Span as S};
ghost use Rattle.measure_core.specs.Laws.{AreMet, IsMet, AreValues, CellIsModest, MeetsLaws};
ghost use Rattle.measure_core.specs.Lists.{added_documents, case_documents, least_documents, AreCounted, HaveRoomFor};
ghost use Rattle.measure_core.specs.PairLists.{pair_documents, sizes_on, IsOfRuns};
ghost use Rattle.measure_core.specs.Pairs.{AreAllMet, pair_cells, run_numbers, runs_on};
ghost use Rattle.measure_core.specs.Rooms.{IsRoomFor};
ghost use Rattle.measure_core.specs.Shifts.{HaveRoom, AreShifted};

use crate::cell::Cell;
use crate::counting::{ListSizes, count_list};
use crate::kept::KeptCell;
use crate::list_room::ListRoom;
use crate::lists::push_added;
use crate::rankings::TopicRankings;
use crate::room::CellRoom;
use crate::run_pair::RunPair;
use crate::shift::Shift;
use crate::steps::Steps;
use desk_model::{Mark, MeasureName, Memory, PairPlaces, Ranking};
use std::alloc::Global;
use std::sync::ledger::Ledger;
use topic_counts::Span;

/// A measure of rankings over incomplete judgements. Rankings are over the universe of the marks,
/// documents are numbered from 0, and numbers are in units of the measure.
pub trait Measure: Drop {
    /// The measure that the laws speak of.
    ghost measured: { Self → N };

    /// What `cell` answers.
    ghost cell_of: { Self → List M → List ℕ → List ℕ → C };

    /// What `bounds` answers.
    ghost bounds_of: { Self → List M → List ℕ → S };

    /// The name of the measure.
    fn name(&self) -> MeasureName
        ensures name { result ≡ measured self.now }
        ensures built { IsMeasure result };

    /// How many units make a score of 1.
    fn unit(&self) -> i128
        ensures { result ≡ pos (unit_of (measured self.now)) };

    /// The ends of the least and of the greatest difference, a's score minus b's, over all
    /// completions. It is one step.
    fn cell<L: Ledger>(
        &self,
        a: &Ranking,
        b: &Ranking,
        marks: &[Mark],
        steps: &mut Steps<L>,
    ) -> Cell
        requires { AreMet marks.now a.now b.now }
        ensures cell { result ≡ cell_of self.now marks.now a.now b.now }
        ensures step { steps.new ≡ steps.old + 1 };

    /// The bounds of one run's score over all completions.
    fn bounds(&self, a: &Ranking, marks: &[Mark]) -> Span
        requires { IsMet marks.now a.now }
        ensures { result ≡ bounds_of self.now marks.now a.now };

    /// Which documents are relevant in the least case of a and b.
    fn least_case(
        &self,
        alloc: Global,
        a: &Ranking,
        b: &Ranking,
        marks: &[Mark],
    ) -> Result<Vec<bool>, Memory>
        requires { AreMet marks.now a.now b.now }
        ensures { IfOk result (λ values.
            AreValues (least_truth (measured self.now) marks.now a.now b.now) (length marks.now)
            values.items) };

    /// Which documents are relevant in the most case of a and b, the least case of b and a.
    fn most_case(
        &self,
        alloc: Global,
        a: &Ranking,
        b: &Ranking,
        marks: &[Mark],
    ) -> Result<Vec<bool>, Memory>
        requires { AreMet marks.now a.now b.now }
        ensures { IfOk result (λ values.
            AreValues (least_truth (measured self.now) marks.now b.now a.now) (length marks.now)
            values.items) }
    {
        self.least_case(alloc, b, a, marks)
    }

    /// Appends the unjudged documents that the least case of a and b makes relevant, by their numbers from 0, ascending.
    /// Those of the most case are the least ones of b and a.
    ///
    /// This body goes over all that `least_case` answers; a measure may have a faster one.
    ///
    /// # Errors
    /// `Memory`: out of memory. It is then not known what `docs` holds.
    fn push_least_docs(
        &self,
        alloc: Global,
        a: &Ranking,
        b: &Ranking,
        marks: &[Mark],
        docs: &mut Vec<u32>,
    ) -> Result<(), Memory>
        requires { AreMet marks.now a.now b.now }
        ensures { OnOk result (docs.new.items ≡ docs.old.items ++
            added_documents marks.now (least_truth (measured self.now) marks.now a.now b.now)) }
    {
        let truth = self.least_case(alloc, a, b, marks)?;
        push_added(marks, &truth, docs)
    }

    /// Appends the documents that `push_least_docs` lists of a and b to `least`, and those that it lists of b and a to
    /// `most`.
    ///
    /// This body makes one list after the other; a measure may have a faster one.
    ///
    /// # Errors
    /// `Memory`: out of memory. It is then not known what `least` and `most` hold.
    fn push_both_docs(
        &self,
        alloc: Global,
        a: &Ranking,
        b: &Ranking,
        marks: &[Mark],
        least: &mut Vec<u32>,
        most: &mut Vec<u32>,
    ) -> Result<(), Memory>
        requires { AreMet marks.now a.now b.now }
        ensures least { OnOk result (least.new.items ≡ least.old.items ++
            least_documents (measured self.now) marks.now a.now b.now) }
        ensures most { OnOk result (most.new.items ≡ most.old.items ++
            least_documents (measured self.now) marks.now b.now a.now) }
    {
        self.push_least_docs(alloc, a, b, marks, least)?;
        self.push_least_docs(alloc, b, a, marks, most)
    }

    /// Counts once more each document that `push_least_docs` lists of a and b, and each one that it lists of b and a,
    /// and answers how many these are, by these lists, made one after the other in `docs`. Counts go by the number of the
    /// document. What `docs` holds before and after is anything.
    ///
    /// # Errors
    /// `Memory`: out of memory. It is then not known what is counted.
    fn count_pushed(
        &self,
        alloc: Global,
        a: &Ranking,
        b: &Ranking,
        marks: &[Mark],
        docs: &mut Vec<u32>,
        counts: &mut [u32],
    ) -> Result<ListSizes, Memory>
        requires met { AreMet marks.now a.now b.now }
        requires size { length counts.old ≡ length marks.now }
        requires room { HaveRoomFor counts.old
            (case_documents (measured self.now) marks.now a.now b.now) }
        ensures least { IfOk result (λ sizes. sizes.least ≡
            length (least_documents (measured self.now) marks.now a.now b.now)) }
        ensures most { IfOk result (λ sizes. sizes.most ≡
            length (least_documents (measured self.now) marks.now b.now a.now)) }
        ensures counts { OnOk result
            (AreCounted counts.old (case_documents (measured self.now) marks.now a.now b.now)
            counts.new) }
    {
        docs.clear();
        self.push_least_docs(alloc, a, b, marks, docs)?;
        count_list(counts, docs);
        let least = docs.len() as u32;
        docs.clear();
        self.push_least_docs(alloc, b, a, marks, docs)?;
        count_list(counts, docs);
        Ok(ListSizes {
            least,
            most: docs.len() as u32,
        })
    }

    /// Counts once more each document that `push_least_docs` lists of a and b, and each one that it lists of b and a,
    /// and answers how many these are. Counts go by the number of the document. The room has a as the first run, before
    /// and after.
    ///
    /// This body makes both lists; a measure may have a faster one.
    ///
    /// # Errors
    /// `Memory`: out of memory. It is then not known what is counted.
    fn count_lists(
        &self,
        alloc: Global,
        a: &Ranking,
        b: &Ranking,
        marks: &[Mark],
        room: &mut ListRoom,
        counts: &mut [u32],
    ) -> Result<ListSizes, Memory>
        requires met { AreMet marks.now a.now b.now }
        requires kept { IsRoomFor marks.now a.now room.old }
        requires size { length counts.old ≡ length marks.now }
        requires room { HaveRoomFor counts.old
            (case_documents (measured self.now) marks.now a.now b.now) }
        ensures kept { OnOk result (IsRoomFor marks.now a.now room.new) }
        ensures least { IfOk result (λ sizes. sizes.least ≡
            length (least_documents (measured self.now) marks.now a.now b.now)) }
        ensures most { IfOk result (λ sizes. sizes.most ≡
            length (least_documents (measured self.now) marks.now b.now a.now)) }
        ensures counts { OnOk result
            (AreCounted counts.old (case_documents (measured self.now) marks.now a.now b.now)
            counts.new) }
    {
        self.count_pushed(alloc, a, b, marks, &mut room.docs, counts)
    }

    /// Counts the documents of the lists of pairs of runs on a topic, each once more for each list that has it, and
    /// answers the sizes of the two lists of each pair, as `count_lists` does. Counts go by the number of the document.
    ///
    /// This body asks `count_lists` of each pair; a measure may have a faster one, which keeps what several pairs need.
    ///
    /// # Errors
    /// `Memory`: out of memory. It is then not known what is counted.
    fn count_pairs(
        &self,
        alloc: Global,
        rankings: &TopicRankings<'_>,
        marks: &[Mark],
        pairs: &[RunPair],
        counts: &mut [u32],
    ) -> Result<Vec<ListSizes>, Memory>
        requires met { AreAllMet marks.now rankings.now }
        requires pairs { All (IsOfRuns (runs_on rankings.now)) pairs.now }
        requires size { length counts.old ≡ length marks.now }
        requires room { HaveRoomFor counts.old
            (pair_documents (measured self.now) marks.now rankings.now pairs.now) }
        ensures sizes { IfOk result (λ sizes. sizes.items ≡
            map (sizes_on (measured self.now) marks.now rankings.now) pairs.now) }
        ensures counts { OnOk result
            (AreCounted counts.old
            (pair_documents (measured self.now) marks.now rankings.now pairs.now) counts.new) }
    {
        let mut room = ListRoom::new(alloc, marks)?;
        let mut first = None;
        let mut sizes = Vec::with_capacity(alloc, pairs.len())?;
        for pair in pairs {
            let a = rankings.ranking(pair.first);
            let b = rankings.ranking(pair.second);
            room.change_first(&mut first, pair.first, a);
            sizes.push(self.count_lists(alloc, a, b, marks, &mut room, counts)?)?;
        }
        Ok(sizes)
    }

    /// How much a document tells of the difference of a and b.
    fn weight(&self, a: &Ranking, b: &Ranking, marks: &[Mark], doc: u32) -> u128
        requires met { AreMet marks.now a.now b.now }
        requires known { doc < length marks.now }
        ensures { result ≡ weight_of (measured self.now) marks.now a.now b.now doc };

    /// Adds the weights of the documents to their totals, or takes them back. Totals go by the number of the document.
    /// It takes no memory.
    ///
    /// A document that neither ranking has weighs nothing. This body asks `weight` of all others; a measure may have a
    /// faster one.
    fn shift_weights(
        &self,
        a: &Ranking,
        b: &Ranking,
        marks: &[Mark],
        shift: Shift,
        totals: &mut [u128],
    )
        requires met { AreMet marks.now a.now b.now }
        requires count { length totals.old ≡ length marks.now }
        requires room { HaveRoom shift (weight_of (measured self.now) marks.now a.now b.now)
            totals.old }
        ensures { AreShifted shift (weight_of (measured self.now) marks.now a.now b.now) totals.old
            totals.new }
    {
        for doc in 0..marks.len() as u32 {
            if a.rank_of(doc).is_some() || b.rank_of(doc).is_some() {
                let weight = self.weight(a, b, marks, doc);
                let total = &mut totals[doc as usize];
                *total = shift.apply(*total, weight);
            }
        }
    }

    /// The cells of all pairs of runs on a topic, in pair order, each by `cell`. It is one step for each
    /// pair, and takes no memory.
    fn each_cell<L: Ledger>(
        &self,
        rankings: &TopicRankings<'_>,
        marks: &[Mark],
        cells: &mut [KeptCell],
        steps: &mut Steps<L>,
    )
        requires met { AreAllMet marks.now rankings.now }
        requires count { length cells.old ≡ length (pairs_of (run_numbers (runs_on rankings.now))) }
        ensures cells { cells.new ≡ pair_cells (cell_of self.now marks.now) rankings.now }
        ensures modest { All CellIsModest cells.new }
        ensures steps { steps.new ≡ steps.old + length cells.old }
    {
        let _name = self.name();
        let runs = rankings.runs();
        let mut at = PairPlaces::START;
        for place in 0..cells.len() {
            let a = rankings.ranking(at.first);
            let b = rankings.ranking(at.second);
            cells[place] = KeptCell::of(self.cell(a, b, marks, steps));
            at = at.next(runs);
        }
    }

    /// The cells of all pairs of runs on a topic, in pair order. It is one step for each pair, and takes
    /// no memory.
    ///
    /// This body asks `cell` of each pair; a measure may have a faster one, which keeps in the room what
    /// several pairs need.
    fn cells<L: Ledger>(
        &self,
        rankings: &TopicRankings<'_>,
        marks: &[Mark],
        _room: &mut CellRoom,
        cells: &mut [KeptCell],
        steps: &mut Steps<L>,
    )
        requires measure { IsMeasure (measured self.now) }
        requires met { AreAllMet marks.now rankings.now }
        requires count { length cells.old ≡ length (pairs_of (run_numbers (runs_on rankings.now))) }
        ensures cells { cells.new ≡ pair_cells (cell_of self.now marks.now) rankings.now }
        ensures modest { All CellIsModest cells.new }
        ensures steps { steps.new ≡ steps.old + length cells.old }
    {
        self.each_cell(rankings, marks, cells, steps);
    }

    /// The laws: cells enclose the difference and bounds the score in every completion; the least and
    /// the most case are completions whose differences lie in their spans; swapped runs have the
    /// swapped cell; and all numbers have stated sizes.
    ghost laws: { (m : Self) → IsMeasure (measured m) → MeetsLaws (measured m) (cell_of m) (bounds_of m) };
}
