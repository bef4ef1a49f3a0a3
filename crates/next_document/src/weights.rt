// The totals of all documents, kept while marks and verdicts change.
ghost use Rattle.std.specs.Prelude.{◌≡◌, ◌<◌, length, IfOk};
ghost use Rattle.desk_model.specs.Desk.{AreMarksOf};
ghost use Rattle.desk_model.specs.Pairs.{pairs_of};

use crate::best_kept::TopicTotals;
use crate::proposal::Proposal;
use crate::renewed::{renew, weighs_by_marks};
use crate::standing::{MarkedDesk, Standing};
use desk_model::{Desk, Marks, Memory, Verdict};
use measure_core::Measure;
use std::alloc::Global;
use std::marker::Model;

/// A total for each document, the sum of its weights over the pairs that are not settled, kept while judgements
/// change marks and verdicts. It holds a copy of the verdicts that its totals stand for.
#[derive(Drop)]
pub struct Weights {
    // By topic, and in it by document.
    totals: Vec<Vec<u128>>,
    verdicts: Vec<Verdict>,
}

impl Model for Weights {
    ghost use Rattle.std.specs.Prelude.{map};
    ghost use Rattle.next_document.specs.Kept.{HeldTotals, AreNumbered};

    ghost Value = { HeldTotals };

    ghost view = { λ w. record { totals = map (λ each. each.items) w.totals.items; verdicts = w.verdicts.items } };

    ghost invariant = { λ w. AreNumbered (map (λ each. each.items) w.totals.items) };
}

impl Weights {
    ghost use Rattle.next_document.specs.Kept.{AreOver, AreKeptFor, AreKeptBut, WereKept, IsNextWhereKept};

    /// The totals under these marks and verdicts. The verdicts are those of the pairs in the order of a table. An error
    /// is out of memory.
    pub fn new<'x, M: Measure>(
        alloc: Global,
        measure: &'x M,
        desk: &'x Desk,
        marks: &'x Marks,
        verdicts: &'x [Verdict],
    ) -> Result<Weights, Memory>
        requires marks { AreMarksOf desk.now marks.now.rows }
        requires verdicts { length verdicts.now ≡ length (pairs_of desk.now.runs) }
        ensures totals { IfOk result (AreKeptFor (M.measured measure.now) desk.now marks.now.rows) }
        ensures held { IfOk result (λ weights. weights.verdicts ≡ verdicts.now) }
    {
        let rows = marks.rows();
        let standing = Standing {
            measure,
            on: MarkedDesk { desk, marks: rows },
            verdicts,
        };
        let totals = standing.all_totals(alloc)?;
        let verdicts = verdicts.to_vec(alloc)?;
        Ok(Weights { totals, verdicts })
    }

    // Holds other verdicts, and renews the totals for them, under the same marks.
    fn hold<'x, M: Measure>(
        &mut self,
        measure: &'x M,
        desk: &'x Desk,
        marks: &'x Marks,
        verdicts: &'x [Verdict],
    )
        requires marks { AreMarksOf desk.now marks.now.rows }
        requires verdicts { length verdicts.now ≡ length (pairs_of desk.now.runs) }
        requires held { length self.old.verdicts ≡ length (pairs_of desk.now.runs) }
        requires totals { AreKeptFor (M.measured measure.now) desk.now marks.now.rows self.old }
        ensures totals { AreKeptFor (M.measured measure.now) desk.now marks.now.rows self.new }
        ensures held { self.new.verdicts ≡ verdicts.now }
    {
        let rows = marks.rows();
        let standing = Standing {
            measure,
            on: MarkedDesk { desk, marks: rows },
            verdicts,
        };
        standing.hold_verdicts(&mut self.verdicts, &mut self.totals);
    }

    /// Renews the totals after a change of marks in one topic, and holds other verdicts.
    ///
    /// Before it, the totals of every other topic are those under these marks and the verdicts held, and those of the
    /// changed topic may be any. After it, all totals are those under these marks and these verdicts, of which any may
    /// differ from the ones held before. It takes no memory.
    pub fn change<'x, M: Measure>(
        &mut self,
        measure: &'x M,
        desk: &'x Desk,
        marks: &'x Marks,
        verdicts: &'x [Verdict],
        topic: u32,
    )
        requires marks { AreMarksOf desk.now marks.now.rows }
        requires verdicts { length verdicts.now ≡ length (pairs_of desk.now.runs) }
        requires topic { topic < length desk.now.topics }
        requires held { length self.old.verdicts ≡ length (pairs_of desk.now.runs) }
        requires others { AreKeptBut topic (M.measured measure.now) desk.now marks.now.rows
            self.old }
        ensures totals { AreKeptFor (M.measured measure.now) desk.now marks.now.rows self.new }
        ensures held { self.new.verdicts ≡ verdicts.now }
    {
        let rows = marks.rows();
        renew(measure, desk, rows, &self.verdicts, topic, &mut self.totals);
        self.hold(measure, desk, marks, verdicts);
    }

    /// The same as `change`, where the totals held are those under marks that differ from these in one topic alone.
    ///
    /// Only a measure whose weights depend on marks has the totals of that topic made anew. Otherwise the weights of the
    /// pairs are added or taken back whose verdict begins or ceases to count.
    pub fn update<'x, M: Measure>(
        &mut self,
        measure: &'x M,
        desk: &'x Desk,
        marks: &'x Marks,
        verdicts: &'x [Verdict],
        topic: u32,
    )
        requires marks { AreMarksOf desk.now marks.now.rows }
        requires verdicts { length verdicts.now ≡ length (pairs_of desk.now.runs) }
        requires topic { topic < length desk.now.topics }
        requires held { length self.old.verdicts ≡ length (pairs_of desk.now.runs) }
        requires before { WereKept topic (M.measured measure.now) desk.now marks.now.rows self.old }
        ensures totals { AreKeptFor (M.measured measure.now) desk.now marks.now.rows self.new }
        ensures held { self.new.verdicts ≡ verdicts.now }
    {
        if weighs_by_marks(measure.name()) {
            self.change(measure, desk, marks, verdicts, topic);
        } else {
            self.hold(measure, desk, marks, verdicts);
        }
    }

    /// The document to judge next, by the kept totals: equal to what `next` answers of the same measure, desk, marks and
    /// verdicts. It looks at each document once, and takes no memory.
    pub fn next(&self, marks: &Marks) -> Option<Proposal>
        requires { AreOver marks.now.rows self.now.totals }
        ensures { IsNextWhereKept marks.now.rows self.now result }
    {
        let rows = marks.rows();
        let mut best = None;
        for topic in 0..self.totals.len() as u32 {
            let here = TopicTotals {
                marks: rows.topic(topic),
                totals: &self.totals[topic as usize],
                number: topic,
            };
            best = here.best_with(best);
        }
        best
    }
}
