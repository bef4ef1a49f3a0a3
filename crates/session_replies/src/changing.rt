// Lines that judge, undo and redo.
ghost use Rattle.std.specs.Prelude.{◌≡◌, ◌≢◌, ◌+◌, ◌<◌, ◌≤◌, ◌≤ℤ◌, [], true, length, slice_index_or, slice_set, pos, negsuc, codes, IfOk, IfSome, IsSome, OnOk, OnErr};
ghost use Rattle.desk_model.specs.Desk.{AreMarksOf};
ghost use Rattle.desk_model.specs.Graded.{is_in_pools, mark_within};
ghost use Rattle.judge_session.specs.InForce.{IsOfDesk};
ghost use Rattle.desk_model.specs.Named.{book_at};
ghost use Rattle.desk_report.specs.Judging.{changed_line};
ghost use Rattle.desk_report.specs.Table.{ended};
ghost use Rattle.pair_table.specs.Kept.{StandsFor, StandsElsewhere};
ghost use Rattle.judge_session.specs.Request as lines;
ghost use Rattle.session_replies.specs.Replies.{refusal, fault_word};
ghost use Rattle.session_replies.specs.State.{setting_of, IsReadyForLine, Answers, CountsLine, Keeps, judgement_said, TakesOver, AreWeightsFor, WereWeightsFor, owed, pairs_in};

use crate::judgement::Judgement;
use crate::state::{Given, Judging};
use crate::telling::refused;
use desk_model::grading::mark;
use desk_model::{Desk, Marks, Memory};
use desk_report::changed_line;
use judge_session::{Changed, JudgeFault, NothingToRedo, NothingToUndo};
use measure_core::{Measure, Steps};
use next_document::Weights;
use pair_table::Table;
use std::alloc::Global;
use std::sync::ledger::Ledger;

// The refusal of a judgement.
fn refused_judgement(alloc: Global, fault: JudgeFault) -> Result<Vec<u8>, Memory>
    ensures text { IfOk result (λ text. text.items ≡ refusal (fault_word fault)) }
    ensures told { OnOk result (fault ≢ JudgeFault.Memory) }
{
    match fault {
        JudgeFault::UnknownTopic => refused(alloc, b"UnknownTopic"),
        JudgeFault::UnknownDocument => refused(alloc, b"UnknownDocument"),
        JudgeFault::HistoryFull => refused(alloc, b"HistoryFull"),
        JudgeFault::Memory => Err(Memory),
    }
}

// Takes a table that is there over to marks, of which those of one topic are new, and with it totals that are there.
fn take_over<M: Measure, L: Ledger>(
    table: &mut Option<Table<M>>,
    weights: &mut Option<Weights>,
    desk: &Desk,
    marks: &Marks,
    topic: u32,
    steps: &mut Steps<L>,
)
    requires marks { AreMarksOf desk.now marks.now.rows }
    requires topic { topic < length desk.now.topics }
    requires others { IfSome table.old (λ table.
        StandsElsewhere (M.cell_of table.measure) (M.bounds_of table.measure) desk.now
        marks.now.rows topic table) }
    requires totals { WereWeightsFor
        (record { name = M.measured; cell = M.cell_of; bound = M.bounds_of }) topic desk.now
        marks.now.rows weights.old table.old }
    ensures table { TakesOver (record { name = M.measured; cell = M.cell_of; bound = M.bounds_of })
        desk.now marks.now.rows table.old table.new }
    ensures totals { AreWeightsFor
        (record { name = M.measured; cell = M.cell_of; bound = M.bounds_of }) desk.now
        marks.now.rows weights.new table.new }
    ensures table_kept { IsSome table.old → IsSome table.new }
    ensures totals_kept { IsSome weights.old → IsSome weights.new }
    ensures steps { steps.new + owed desk.now table.new ≤ steps.old + owed desk.now table.old +
        pairs_in desk.now }
{
    if let Some(table) = table {
        table.change(desk, marks, topic, steps);
        if let Some(weights) = weights {
            weights.update(table.measure(), desk, marks, table.verdicts(), topic);
        }
    }
}

impl<M: Measure> Judging<M> {
    // Takes over a change: the mark of its document, by its grade and by whether it is in the pool, and a table and totals
    // that are there.
    fn follow<L: Ledger>(
        &mut self,
        alloc: Global,
        given: &Given<'_>,
        word: &[u8],
        changed: &Changed,
        steps: &mut Steps<L>,
    ) -> Result<Vec<u8>, Memory>
        requires document { IsOfDesk given.now.desk.now changed.now }
        requires marks { AreMarksOf given.now.desk.now self.old.marks.rows }
        requires topic { changed.now.topic < length self.old.marks.rows }
        requires doc { changed.now.doc <
            length (slice_index_or self.old.marks.rows changed.now.topic []) }
        requires table { IfSome self.old.table (λ table.
            StandsFor (M.cell_of table.measure) (M.bounds_of table.measure) given.now.desk.now
            self.old.marks.rows table) }
        requires totals { AreWeightsFor
            (record { name = M.measured; cell = M.cell_of; bound = M.bounds_of }) given.now.desk.now
            self.old.marks.rows self.old.weights self.old.table }
        ensures marks { OnOk result (self.new.marks.rows ≡
            slice_set self.old.marks.rows changed.now.topic
            (slice_set (slice_index_or self.old.marks.rows changed.now.topic []) changed.now.doc
            (mark_within changed.now.grade given.now.grading.level
            (is_in_pools self.old.marks.pools changed.now.topic changed.now.doc)))) }
        ensures pools { self.new.marks.pools ≡ self.old.marks.pools }
        ensures table { OnOk result
            (TakesOver (record { name = M.measured; cell = M.cell_of; bound = M.bounds_of })
            given.now.desk.now self.new.marks.rows self.old.table self.new.table) }
        ensures totals { AreWeightsFor
            (record { name = M.measured; cell = M.cell_of; bound = M.bounds_of }) given.now.desk.now
            self.new.marks.rows self.new.weights self.new.table }
        ensures kept { Keeps self.old self.new }
        ensures session { self.new.session ≡ self.old.session }
        ensures line { IfOk result (λ line. line.items
            ≡ ended (changed_line word.now (book_at given.now.desk.now changed.now.topic).name
            (slice_index_or (book_at given.now.desk.now changed.now.topic).docs changed.now.doc [])
            changed.now.grade)) }
        ensures steps { steps.new + owed given.now.desk.now self.new.table ≤ steps.old +
            owed given.now.desk.now self.old.table + pairs_in given.now.desk.now }
        ensures stopped { OnErr result (steps.new ≡ steps.old) }
    {
        // Where memory runs out, nothing was evaluated.
        let line = changed_line(alloc, word, given.desk, changed)?;
        let pooled = self.marks.pooled(changed.topic, changed.doc);
        let mark = mark(changed.grade, given.grading.level(), pooled);
        self.marks.set(changed.topic, changed.doc, mark);
        take_over(
            &mut self.table,
            &mut self.weights,
            given.desk,
            &self.marks,
            changed.topic,
            steps,
        );
        Ok(line)
    }

    /// The reply to `judge WHO TOPIC DOC GRADE`.
    pub fn judge<L: Ledger>(
        &mut self,
        alloc: Global,
        given: &Given<'_>,
        judgement: &Judgement<'_>,
        steps: &mut Steps<L>,
    ) -> Result<Vec<u8>, Memory>
        requires ready { IsReadyForLine
            (record { name = M.measured; cell = M.cell_of; bound = M.bounds_of })
            (setting_of given.now) self.old }
        ensures answers { IfOk result (λ text.
            Answers (record { name = M.measured; cell = M.cell_of; bound = M.bounds_of })
            (setting_of given.now)
            (lines.Asked (judgement_said judgement.now)) self.old self.new text.items) }
        ensures counts { CountsLine (setting_of given.now)
            (lines.Asked (judgement_said judgement.now)) self.old self.new steps.old steps.new }
        ensures kept { Keeps self.old self.new }
        // Where memory runs out, nothing was evaluated.
        ensures stopped { OnErr result (steps.new ≡ steps.old) }
    {
        given.desk.valid();
        let Judgement {
            who,
            topic,
            doc,
            grade,
        } = *judgement;
        match self
            .session
            .judge(alloc, given.desk, who, topic, doc, grade)
        {
            Ok(changed) => self.follow(alloc, given, b"judged", &changed, steps),
            Err(fault) => refused_judgement(alloc, fault),
        }
    }

    /// The reply to `undo WHO`.
    pub fn undo<L: Ledger>(
        &mut self,
        alloc: Global,
        given: &Given<'_>,
        who: &[u8],
        steps: &mut Steps<L>,
    ) -> Result<Vec<u8>, Memory>
        requires { IsReadyForLine
            (record { name = M.measured; cell = M.cell_of; bound = M.bounds_of })
            (setting_of given.now) self.old }
        ensures answers { IfOk result (λ text.
            Answers (record { name = M.measured; cell = M.cell_of; bound = M.bounds_of })
            (setting_of given.now)
            (lines.Asked (lines.Undo who.now)) self.old self.new text.items) }
        ensures counts { CountsLine (setting_of given.now) (lines.Asked (lines.Undo who.now))
            self.old self.new steps.old steps.new }
        ensures kept { Keeps self.old self.new }
        // Where memory runs out, nothing was evaluated.
        ensures stopped { OnErr result (steps.new ≡ steps.old) }
    {
        given.desk.valid();
        match self.session.undo(given.desk, who) {
            Ok(changed) => self.follow(alloc, given, b"undone", &changed, steps),
            Err(NothingToUndo) => refused(alloc, b"NothingToUndo"),
        }
    }

    /// The reply to `redo WHO`.
    pub fn redo<L: Ledger>(
        &mut self,
        alloc: Global,
        given: &Given<'_>,
        who: &[u8],
        steps: &mut Steps<L>,
    ) -> Result<Vec<u8>, Memory>
        requires { IsReadyForLine
            (record { name = M.measured; cell = M.cell_of; bound = M.bounds_of })
            (setting_of given.now) self.old }
        ensures answers { IfOk result (λ text.
            Answers (record { name = M.measured; cell = M.cell_of; bound = M.bounds_of })
            (setting_of given.now)
            (lines.Asked (lines.Redo who.now)) self.old self.new text.items) }
        ensures counts { CountsLine (setting_of given.now) (lines.Asked (lines.Redo who.now))
            self.old self.new steps.old steps.new }
        ensures kept { Keeps self.old self.new }
        // Where memory runs out, nothing was evaluated.
        ensures stopped { OnErr result (steps.new ≡ steps.old) }
    {
        given.desk.valid();
        match self.session.redo(given.desk, who) {
            Ok(changed) => self.follow(alloc, given, b"redone", &changed, steps),
            Err(NothingToRedo) => refused(alloc, b"NothingToRedo"),
        }
    }
}
