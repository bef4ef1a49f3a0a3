// The bundle of a table as a text.
ghost use Rattle.std.specs.Prelude.{◌≡◌, ◌≤◌, length, IfOk};
ghost use Rattle.desk_model.specs.Desk.{AreMarksOf};
ghost use Rattle.desk_report.specs.Reports.{Subject, IsSubjectOf};
ghost use Rattle.pair_table.specs.Kept.{StandsFor, table_sums};
ghost use Rattle.bundle_report.specs.Bundled.{IsBundledAs};

use desk_model::{Desk, Marks, Memory};
use desk_report::Grading;
use measure_core::Measure;
use order_bundle::{
    AnyCertificate, BundleFault, LONGEST_TEXT, Scoped, depth_length,
    scoped_certificates_have_texts, scoped_text_length, write_scoped,
};
use pair_table::Table;
use std::alloc::Global;
use table_bundle::laws::bundles_are_of_names;
use table_bundle::{bundle_of, table_bundle_length};

/// What is printed of all pairs of runs to show their orders.
#[derive(Drop)]
pub enum Bundled {
    /// The text of their bundle.
    Bundle(Vec<u8>),
    /// The text would have more than 1,073,741,824 bytes: how many.
    TooLong { bytes: u64 },
}

/// What shows the orders of all pairs of at least two runs of a desk under marks: the text of their bundle, with the level
/// and the depth where there is one, or how many bytes it would have. The length is found first, and the bundle made only
/// where it is not too long.
///
/// # Errors
/// `Memory`: out of memory.
pub fn bundle_report<M: Measure>(
    alloc: Global,
    desk: &Desk,
    marks: &Marks,
    grading: Grading,
    table: &Table<M>,
) -> Result<Bundled, Memory>
    requires runs { 2 ≤ length desk.now.runs }
    requires marks { AreMarksOf desk.now marks.now.rows }
    requires table { StandsFor (M.cell_of table.now.measure) (M.bounds_of table.now.measure)
        desk.now marks.now.rows table.now }
    ensures { IfOk result (λ answer. (s : Subject) → s.level ≡ grading.level →
        s.depth ≡ grading.depth → s.marks ≡ marks.now.rows →
        IsSubjectOf (M.measured table.now.measure) (M.cell_of table.now.measure)
        (M.bounds_of table.now.measure) desk.now (table_sums table.now) s →
        IsBundledAs s answer) }
{
    desk.valid();
    bundles_are_of_names();
    scoped_certificates_have_texts();
    scoped_text_length();
    let level = grading.level();
    let depth = grading.depth();
    let bytes = table_bundle_length(alloc, table, desk, marks, level)? + depth_length(depth);
    if bytes > LONGEST_TEXT {
        return Ok(Bundled::TooLong { bytes });
    }
    let bundle = bundle_of(alloc, table, desk, marks, level)?;
    let body = AnyCertificate::Many(bundle);
    let scoped = Scoped { depth, body };
    match write_scoped(alloc, &scoped) {
        Ok(text) => Ok(Bundled::Bundle(text)),
        Err(BundleFault::TooLong { bytes }) => Ok(Bundled::TooLong { bytes }),
        Err(BundleFault::Memory) => Err(Memory),
    }
}
