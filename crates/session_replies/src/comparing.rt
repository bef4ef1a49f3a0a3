// Lines that compare runs by a table.
ghost use Rattle.std.specs.Prelude.{◌≡◌, ◌+◌, ◌≤◌, Some, IfOk, IfErr, IsSome, OnOk};
ghost use Rattle.desk_model.specs.Desk.{AreMarksOf};
ghost use Rattle.desk_model.specs.Name.{number_of};
ghost use Rattle.desk_report.specs.Reports.{Subject, IsSubjectOf, IsNextText, AreRuns};
ghost use Rattle.pair_table.specs.Kept.{StandsFor, table_sums};
ghost use Rattle.session_replies.specs.Replies.{refusal, subject_after, IsRunRefusal};
ghost use Rattle.session_replies.specs.State.{setting_of, IsSetting, IsReadyForLine, Keeps, IsReported, AreReportedRuns, AreWeightsFor, owed, word_of, shown_text};

use crate::state::{Given, Judging};
use crate::telling::refused;
use desk_model::{Desk, Marks, Memory};
use desk_report::{Certified, certified_report, kept_next_report, pair_report, table_report};
use measure_core::{Maker, Measure, Steps};
use next_document::Weights;
use pair_table::{Table, table_on};
use std::alloc::Global;
use std::sync::ledger::Ledger;

/// Why two names are no two runs.
#[derive(Clone, Copy)]
pub enum RunFault {
    UnknownRun,
    SameRun,
}

/// What a line asks of a table. Runs are numbered from 0.
#[derive(Clone, Copy)]
pub enum TableRequest {
    /// The whole table.
    Table,
    /// The line of two different runs.
    Pair((u32, u32)),
    /// The certificate of two different runs, or their close line.
    Certificate((u32, u32)),
}

/// Two different runs by their names.
pub fn find_runs(desk: &Desk, first: &[u8], second: &[u8]) -> Result<(u32, u32), RunFault>
    ensures first { IfOk result (λ runs. number_of desk.now.runs first.now ≡ Some runs.0) }
    ensures second { IfOk result (λ runs. number_of desk.now.runs second.now ≡ Some runs.1) }
    ensures runs { IfOk result (λ runs. AreRuns desk.now runs.0 runs.1) }
    ensures refused { IfErr result (λ fault.
        IsRunRefusal desk.now first.now second.now (word_of fault)) }
{
    match (desk.find_run(first), desk.find_run(second)) {
        (Some(first), Some(second)) => {
            if first == second {
                Err(RunFault::SameRun)
            } else {
                Ok((first, second))
            }
        }
        _ => Err(RunFault::UnknownRun),
    }
}

/// The refusal of two names.
pub fn refused_runs(alloc: Global, fault: RunFault) -> Result<Vec<u8>, Memory>
    ensures { IfOk result (λ text. text.items ≡ refusal (word_of fault)) }
{
    match fault {
        RunFault::UnknownRun => refused(alloc, b"UnknownRun"),
        RunFault::SameRun => refused(alloc, b"SameRun"),
    }
}

// Makes the table of the marks, where none is there.
fn prepare<P: Maker, L: Ledger>(
    alloc: Global,
    judging: &mut Judging<P::Made>,
    given: &Given<'_>,
    maker: &P,
    steps: &mut Steps<L>,
) -> Result<(), Memory>
    requires setting { IsSetting (setting_of given.now) }
    requires ready { IsReadyForLine
        (record { name = P.Made.measured; cell = P.Made.cell_of; bound = P.Made.bounds_of })
        (setting_of given.now) judging.old }
    ensures ready { IsReadyForLine
        (record { name = P.Made.measured; cell = P.Made.cell_of; bound = P.Made.bounds_of })
        (setting_of given.now) judging.new }
    ensures kept { Keeps judging.old judging.new }
    ensures session { judging.new.session ≡ judging.old.session }
    ensures table { OnOk result (IsSome judging.new.table) }
    ensures steps { steps.new + owed given.now.desk.now judging.new.table ≤ steps.old +
        owed given.now.desk.now judging.old.table }
{
    given.desk.valid();
    if judging.table.is_none() {
        let table = table_on(
            alloc,
            given.desk,
            &judging.marks,
            *given.measure,
            maker,
            steps,
        )?;
        judging.table = Some(table);
    }
    Ok(())
}

// The text of a certificate or of a close line.
fn shown(answer: Certified) -> Vec<u8>
    ensures { result.items ≡ shown_text answer }
{
    match answer {
        Certified::Certificate(text) => text,
        Certified::Close(text) => text,
    }
}

// A report of a table that is there.
fn report_text<M: Measure>(
    alloc: Global,
    given: &Given<'_>,
    marks: &Marks,
    table: &Table<M>,
    report: TableRequest,
) -> Result<Vec<u8>, Memory>
    requires marks { AreMarksOf given.now.desk.now marks.now.rows }
    requires table { StandsFor (M.cell_of table.now.measure) (M.bounds_of table.now.measure)
        given.now.desk.now marks.now.rows table.now }
    requires runs { AreReportedRuns given.now.desk.now report }
    ensures { IfOk result (λ text. (s : Subject) → s.level ≡ given.now.grading.level →
        s.depth ≡ given.now.grading.depth → s.marks ≡ marks.now.rows →
        IsSubjectOf (M.measured table.now.measure) (M.cell_of table.now.measure)
        (M.bounds_of table.now.measure) given.now.desk.now (table_sums table.now) s →
        IsReported s report text.items) }
{
    let (desk, grading) = (given.desk, given.grading);
    let sums = table.sums();
    match report {
        TableRequest::Table => table_report(alloc, desk, grading, sums),
        TableRequest::Pair((first, second)) => pair_report(alloc, desk, sums, first, second),
        TableRequest::Certificate((first, second)) => {
            let answer = certified_report(alloc, desk, marks, grading, table, first, second)?;
            Ok(shown(answer))
        }
    }
}

/// A report on the judgements in force. Its table is made where none is there.
///
/// # Errors
/// `Memory`: out of memory.
pub fn make_report<P: Maker, L: Ledger>(
    alloc: Global,
    judging: &mut Judging<P::Made>,
    given: &Given<'_>,
    report: TableRequest,
    maker: &P,
    steps: &mut Steps<L>,
) -> Result<Vec<u8>, Memory>
    requires setting { IsSetting (setting_of given.now) }
    requires ready { IsReadyForLine
        (record { name = P.Made.measured; cell = P.Made.cell_of; bound = P.Made.bounds_of })
        (setting_of given.now) judging.old }
    requires runs { AreReportedRuns given.now.desk.now report }
    ensures ready { IsReadyForLine
        (record { name = P.Made.measured; cell = P.Made.cell_of; bound = P.Made.bounds_of })
        (setting_of given.now) judging.new }
    ensures kept { Keeps judging.old judging.new }
    ensures session { judging.new.session ≡ judging.old.session }
    ensures told { IfOk result (λ text.
        IsReported (subject_after (setting_of given.now) judging.old.session) report text.items) }
    ensures steps { steps.new + owed given.now.desk.now judging.new.table ≤ steps.old +
        owed given.now.desk.now judging.old.table }
{
    given.desk.valid();
    prepare(alloc, judging, given, maker, steps)?;
    match &judging.table {
        Some(table) => report_text(alloc, given, &judging.marks, table, report),
        None => unreachable!(),
    }
}

// Makes the totals of the documents by a table, where none are there.
fn weigh<M: Measure>(
    alloc: Global,
    desk: &Desk,
    marks: &Marks,
    table: &Table<M>,
    weights: &mut Option<Weights>,
) -> Result<(), Memory>
    requires marks { AreMarksOf desk.now marks.now.rows }
    requires table { StandsFor (M.cell_of table.now.measure) (M.bounds_of table.now.measure)
        desk.now marks.now.rows table.now }
    requires totals { AreWeightsFor
        (record { name = M.measured; cell = M.cell_of; bound = M.bounds_of }) desk.now
        marks.now.rows weights.old (Some table.now) }
    ensures totals { AreWeightsFor
        (record { name = M.measured; cell = M.cell_of; bound = M.bounds_of }) desk.now
        marks.now.rows weights.new (Some table.now) }
    ensures kept { IsSome weights.old → IsSome weights.new }
    ensures there { OnOk result (IsSome weights.new) }
{
    if weights.is_none() {
        let made = Weights::new(alloc, table.measure(), desk, marks, table.verdicts())?;
        *weights = Some(made);
    }
    Ok(())
}

// The line of the next document by a table that is there.
fn next_text<M: Measure>(
    alloc: Global,
    desk: &Desk,
    marks: &Marks,
    table: &Table<M>,
    weights: &mut Option<Weights>,
) -> Result<Vec<u8>, Memory>
    requires marks { AreMarksOf desk.now marks.now.rows }
    requires table { StandsFor (M.cell_of table.now.measure) (M.bounds_of table.now.measure)
        desk.now marks.now.rows table.now }
    requires totals { AreWeightsFor
        (record { name = M.measured; cell = M.cell_of; bound = M.bounds_of }) desk.now
        marks.now.rows weights.old (Some table.now) }
    ensures totals { AreWeightsFor
        (record { name = M.measured; cell = M.cell_of; bound = M.bounds_of }) desk.now
        marks.now.rows weights.new (Some table.now) }
    ensures kept { IsSome weights.old → IsSome weights.new }
    ensures text { IfOk result (λ text. (s : Subject) → s.marks ≡ marks.now.rows →
        IsSubjectOf (M.measured table.now.measure) (M.cell_of table.now.measure)
        (M.bounds_of table.now.measure) desk.now (table_sums table.now) s →
        IsNextText s text.items) }
{
    desk.valid();
    weigh(alloc, desk, marks, table, weights)?;
    match weights {
        Some(weights) => kept_next_report(alloc, desk, marks, weights),
        None => unreachable!(),
    }
}

/// The line of the document to judge next, by the judgements in force. Its table and its totals are made where none
/// are there.
///
/// # Errors
/// `Memory`: out of memory.
pub fn make_next<P: Maker, L: Ledger>(
    alloc: Global,
    judging: &mut Judging<P::Made>,
    given: &Given<'_>,
    maker: &P,
    steps: &mut Steps<L>,
) -> Result<Vec<u8>, Memory>
    requires setting { IsSetting (setting_of given.now) }
    requires ready { IsReadyForLine
        (record { name = P.Made.measured; cell = P.Made.cell_of; bound = P.Made.bounds_of })
        (setting_of given.now) judging.old }
    ensures ready { IsReadyForLine
        (record { name = P.Made.measured; cell = P.Made.cell_of; bound = P.Made.bounds_of })
        (setting_of given.now) judging.new }
    ensures kept { Keeps judging.old judging.new }
    ensures session { judging.new.session ≡ judging.old.session }
    ensures told { IfOk result (λ text.
        IsNextText (subject_after (setting_of given.now) judging.old.session) text.items) }
    ensures steps { steps.new + owed given.now.desk.now judging.new.table ≤ steps.old +
        owed given.now.desk.now judging.old.table }
{
    given.desk.valid();
    prepare(alloc, judging, given, maker, steps)?;
    match &judging.table {
        Some(table) => next_text(
            alloc,
            given.desk,
            &judging.marks,
            table,
            &mut judging.weights,
        ),
        None => unreachable!(),
    }
}
