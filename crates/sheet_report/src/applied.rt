// The judgements in force under a sheet, as a judgements file.
ghost use Rattle.std.specs.Prelude.{◌≡◌, IfOk};
ghost use Rattle.desk_report.specs.Judging.{qrels_text};
ghost use Rattle.sheet_report.specs.Applied.{all_under};

use desk_model::{Desk, Memory};
use desk_report::qrels_text;
use sheet_merge::Sheet;
use std::alloc::Global;

/// The judgements in force on all topics where a sheet stands over the judgements file, as lines of a judgements file:
/// of each document the grade of its entry, else the file's; `-1` where that is below 0 and the file lists the document,
/// and no line where it is below 0, or there is none, and the file does not list the document.
///
/// # Errors
/// `Memory`: out of memory.
pub fn applied_text(alloc: Global, desk: &Desk, sheet: &Sheet) -> Result<Vec<u8>, Memory>
    ensures { IfOk result (λ text. text.items ≡
        qrels_text desk.now (all_under desk.now sheet.now)) }
{
    let mut out = Vec::new(alloc);
    for topic in 0..desk.topic_count() {
        let grades = sheet.grades_under(alloc, desk, topic)?;
        let text = qrels_text(alloc, desk, topic, &grades)?;
        out.extend_from_slice(&text)?;
    }
    Ok(out)
}
