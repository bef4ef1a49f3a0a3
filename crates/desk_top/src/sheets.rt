// The commands on sheets of assessors.
ghost use Rattle.std.specs.Prelude.{◌≡◌, ℕ};
ghost use Rattle.desk_files.specs.Reads.{ReadsFiles, extent_of};
ghost use Rattle.desk_files.specs.Views.{answer_of};
ghost use Rattle.desk_outside.specs.Seen.{shelf};
ghost use Rattle.desk_top.specs.Loading.{sheets_loading, placing_loading, OpensWithin};
ghost use Rattle.desk_top.specs.Meaning.{merge_meaning, apply_meaning};
ghost use Rattle.desk_top.specs.Works.{Works};

use crate::outcome::Outcome;
use crate::status::Status;
use desk_files::{Stop, load_merged, load_placing};
use desk_outside::Shelf;
use desk_words::{Placing, Sheets};
use sheet_report::applied_text;
use std::alloc::Global;

/// The text of the sheet that sheets are merged into.
pub fn merge_outcome<'a, F: Shelf>(
    alloc: Global,
    files: &mut F,
    sheets: &'a Sheets,
) -> Result<Outcome, Stop<'a>>
    ensures works { (cells : ℕ) →
        Works (merge_meaning sheets.now) (shelf (F.state files.old) (F.state files.new)) cells cells
        result }
    ensures opened { OpensWithin (sheets_loading sheets.now)
        (shelf (F.state files.old) (F.state files.new)) }
    ensures reads { ReadsFiles (extent_of (answer_of result)) (F.state files.old).calls
        (F.state files.new).calls }
    ensures files { (F.state files.new).files ≡ (F.state files.old).files }
{
    let sheet = load_merged(alloc, files, sheets)?;
    sheet.valid();
    let text = sheet.text(alloc)?;
    Ok(Outcome::Prints {
        text,
        status: Status::Done,
    })
}

/// The judgements of a desk, where a sheet stands over its judgements file, as a judgements file.
pub fn apply_outcome<'a, F: Shelf>(
    alloc: Global,
    files: &mut F,
    placing: &'a Placing,
) -> Result<Outcome, Stop<'a>>
    ensures works { (cells : ℕ) →
        Works (apply_meaning placing.now) (shelf (F.state files.old) (F.state files.new)) cells
        cells result }
    ensures opened { OpensWithin (placing_loading placing.now)
        (shelf (F.state files.old) (F.state files.new)) }
    ensures reads { ReadsFiles (extent_of (answer_of result)) (F.state files.old).calls
        (F.state files.new).calls }
    ensures files { (F.state files.new).files ≡ (F.state files.old).files }
{
    let (desk, sheet) = load_placing(alloc, files, placing)?;
    sheet.valid();
    let text = applied_text(alloc, &desk, &sheet)?;
    Ok(Outcome::Prints {
        text,
        status: Status::Done,
    })
}
