// A table of pairs by the name of a measure, and its texts.
ghost use Rattle.std.specs.Prelude.{◌≡◌, ◌+◌, ℕ, length, IfOk, OnOk, OnErr};
ghost use Rattle.desk_model.specs.Desk.{AreMarksOf};
ghost use Rattle.desk_model.specs.MeasureText.{IsMeasure};
ghost use Rattle.desk_model.specs.declared.types.MeasureName.{MeasureName as Measured};
ghost use Rattle.next_document.specs.Kept.{AreKeptFor};
ghost use Rattle.order_bundle.specs.Scoped.{IsScope, scoped_text};
ghost use Rattle.order_bundle.specs.declared.any_certificate.AnyCertificate.TheVariants.{One};
ghost use Rattle.order_certificate.specs.Certificate.{IsCertificate};
ghost use Rattle.pair_table.specs.Kept.{StandsFor, table_sums};
ghost use Rattle.desk_report.specs.Reports.{Subject, subject, IsSubjectOf, IsTableText, IsPairText, IsCertifiedAs, IsNextText, AreWeightsOf, AreRuns, cells_of};

use crate::{Grading, close_line, next_line_text, pair_line, table_text};
use desk_model::{Desk, Marks, MeasureName, Memory};
use measure_core::{Maker, Measure, Steps};
use next_document::{Weights, next};
use order_bundle::{
    AnyCertificate, BundleFault, Scoped, scoped_certificates_have_texts, write_scoped,
};
use order_certificate::Certificate;
use pair_table::{EvidenceFault, Table, TableSums};
use std::alloc::Global;
use std::sync::ledger::Ledger;

/// What is printed of two runs to show their order.
#[derive(Drop)]
pub enum Certified {
    /// The text of their certificate.
    Certificate(Vec<u8>),
    /// Their close line, exactly where their verdict is close.
    Close(Vec<u8>),
}

/// The text of a table over a desk by its sums: its head with the measure, the level, the depth where there is one, and
/// how many topics and runs there are, a line for each run and a line for each pair. It speaks of the marks for which the
/// sums stand.
///
/// # Errors
/// `Memory`: out of memory.
pub fn table_report<M: Measure>(
    alloc: Global,
    desk: &Desk,
    grading: Grading,
    sums: &TableSums<M>,
) -> Result<Vec<u8>, Memory>
    requires { sums.now.runs ≡ length desk.now.runs }
    ensures { IfOk result (λ text. (s : Subject) → s.level ≡ grading.level →
        s.depth ≡ grading.depth →
        IsSubjectOf (M.measured sums.now.measure) (M.cell_of sums.now.measure)
        (M.bounds_of sums.now.measure) desk.now sums.now s →
        IsTableText s text.items) }
{
    desk.valid();
    let measure = sums.measure();
    let name = measure.name();
    let text = table_text(
        alloc,
        desk,
        &name,
        grading.level(),
        grading.depth(),
        measure.unit(),
        sums.all_bounds(),
        sums.all_totals(),
    )?;
    Ok(text)
}

/// The pair line of two different runs of a desk, numbered from 0, with its line feed: the first run stands first,
/// whichever comes first in the desk. It speaks of the marks for which the sums stand.
///
/// # Errors
/// `Memory`: out of memory.
pub fn pair_report<M: Measure>(
    alloc: Global,
    desk: &Desk,
    sums: &TableSums<M>,
    first: u32,
    second: u32,
) -> Result<Vec<u8>, Memory>
    requires runs { AreRuns desk.now first second }
    requires sums { sums.now.runs ≡ length desk.now.runs }
    ensures { IfOk result (λ text. (s : Subject) →
        IsSubjectOf (M.measured sums.now.measure) (M.cell_of sums.now.measure)
        (M.bounds_of sums.now.measure) desk.now sums.now s →
        IsPairText s first second text.items) }
{
    let measure = sums.measure();
    // The laws speak of measures that have a name, and of sums that are not large.
    let (_name, _sums) = (measure.name(), sums.all_totals());
    let topics = desk.topic_count();
    let totals = sums.totals(first, second);
    let text = pair_line(
        alloc,
        desk.run_name(first),
        desk.run_name(second),
        measure.unit(),
        topics,
        &totals,
    )?;
    Ok(text)
}

// The text of a certificate of two runs, with a line of the depth where there is one.
fn certificate_text(
    alloc: Global,
    certificate: Certificate,
    depth: Option<u32>,
) -> Result<Vec<u8>, Memory>
    requires certificate { IsCertificate certificate }
    requires depth { IsScope depth }
    ensures { IfOk result (λ text. text.items ≡
        scoped_text (record { depth = depth; body = One certificate })) }
{
    scoped_certificates_have_texts();
    let scoped = Scoped {
        depth,
        body: AnyCertificate::One(certificate),
    };
    match write_scoped(alloc, &scoped) {
        Ok(text) => Ok(text),
        Err(BundleFault::Memory) => Err(Memory),
        Err(BundleFault::TooLong { .. }) => unreachable!(),
    }
}

/// What shows the order of two different runs of a desk under marks, numbered from 0: their certificate, with the level
/// and the depth where there is one, or their close line.
///
/// # Errors
/// `Memory`: out of memory.
pub fn certified_report<M: Measure>(
    alloc: Global,
    desk: &Desk,
    marks: &Marks,
    grading: Grading,
    table: &Table<M>,
    first: u32,
    second: u32,
) -> Result<Certified, Memory>
    requires runs { AreRuns desk.now first second }
    requires marks { AreMarksOf desk.now marks.now.rows }
    requires table { StandsFor (M.cell_of table.now.measure) (M.bounds_of table.now.measure)
        desk.now marks.now.rows table.now }
    ensures { IfOk result (λ answer. (s : Subject) → s.level ≡ grading.level →
        s.depth ≡ grading.depth → s.marks ≡ marks.now.rows →
        IsSubjectOf (M.measured table.now.measure) (M.cell_of table.now.measure)
        (M.bounds_of table.now.measure) desk.now (table_sums table.now) s →
        IsCertifiedAs s first second answer) }
{
    desk.valid();
    match table.evidence(alloc, desk, marks, grading.level(), first, second) {
        Ok(certificate) => {
            let text = certificate_text(alloc, certificate, grading.depth())?;
            Ok(Certified::Certificate(text))
        }
        Err(EvidenceFault::Close(totals)) => {
            let text = close_line(alloc, desk.run_name(first), desk.run_name(second), &totals)?;
            Ok(Certified::Close(text))
        }
        Err(EvidenceFault::Memory) => Err(Memory),
    }
}

/// The line of the document to judge next on a desk under marks, with its line feed: its names and its total weight over
/// the pairs that are not settled, or `next none`.
///
/// # Errors
/// `Memory`: out of memory.
pub fn next_report<M: Measure>(
    alloc: Global,
    desk: &Desk,
    marks: &Marks,
    sums: &TableSums<M>,
) -> Result<Vec<u8>, Memory>
    requires marks { AreMarksOf desk.now marks.now.rows }
    requires sums { sums.now.runs ≡ length desk.now.runs }
    ensures { IfOk result (λ text. (s : Subject) → s.marks ≡ marks.now.rows →
        IsSubjectOf (M.measured sums.now.measure) (M.cell_of sums.now.measure)
        (M.bounds_of sums.now.measure) desk.now sums.now s →
        IsNextText s text.items) }
{
    desk.valid();
    // There are sums for each pair.
    let _sums = sums.all_totals();
    let proposal = next(sums.measure(), desk, marks, sums.verdicts());
    let text = next_line_text(alloc, desk, proposal.as_ref())?;
    Ok(text)
}

/// The line of the document to judge next on a desk under marks, as `next_report` makes it, by totals that are kept for
/// the desk and these marks. It looks at each document once.
///
/// # Errors
/// `Memory`: out of memory.
pub fn kept_next_report(
    alloc: Global,
    desk: &Desk,
    marks: &Marks,
    weights: &Weights,
) -> Result<Vec<u8>, Memory>
    requires marks { AreMarksOf desk.now marks.now.rows }
    requires kept { (measure : Measured) × AreKeptFor measure desk.now marks.now.rows weights.now }
    ensures { IfOk result (λ text. (s : Subject) → s.desk ≡ desk.now → s.marks ≡ marks.now.rows →
        AreWeightsOf s weights.now → IsNextText s text.items) }
{
    desk.valid();
    let proposal = weights.next(marks);
    let text = next_line_text(alloc, desk, proposal.as_ref())?;
    Ok(text)
}
