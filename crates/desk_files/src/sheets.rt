//! What the files of sheets say.
ghost use Rattle.std.specs.Prelude.{◌≡◌, ◌<◌, ◌≤◌, [], length};
ghost use Rattle.desk_outside.specs.Calls.{opened_in};
ghost use Rattle.desk_files.specs.Files.{sheet_stop_at};
ghost use Rattle.desk_files.specs.Load.{Opens};
ghost use Rattle.desk_files.specs.Outcome.{Gives};
ghost use Rattle.desk_files.specs.Reads.{ReadsFile, ReadsFiles, extent_of};
ghost use Rattle.desk_files.specs.Sheets.{SheetsMayOpen, merge_of, sheet_in, with_sheet_in};
ghost use Rattle.desk_files.specs.Stopped.{IsStopOf};
ghost use Rattle.desk_files.specs.Views.{answer_of};

use crate::files::{feed_file, open_file};
use crate::stop::{Refusal, Stop};
use desk_outside::Shelf;
use desk_words::Sheets;
use sheet_merge::{MergeFault, Sheet, SheetFault, SheetReader};
use std::alloc::Global;

// Why a command stops at a sheet whose reading ended so.
fn stop_of<'a>(path: &'a str, fault: SheetFault) -> Stop<'a>
    ensures { IsStopOf (sheet_stop_at path.entry.now fault) result }
{
    match fault {
        SheetFault::Line { line, fault } => Stop::Refused(Refusal::SheetLine(path, line, fault)),
        SheetFault::Memory => Stop::Memory,
    }
}

/// The sheet of a file, which is read to its end also where a line has a fault; or why there is none.
pub fn load_sheet<'a, F: Shelf>(
    alloc: Global,
    files: &mut F,
    path: &'a str,
) -> Result<Sheet, Stop<'a>>
    ensures gives { Gives (F.state files.old).files (F.state files.old).faults
        (F.state files.new).faults (λ sheet. sheet) result (λ held. sheet_in held path.now) }
    ensures files { (F.state files.new).files ≡ (F.state files.old).files }
    ensures reads { ReadsFile path.now (extent_of (answer_of result)) (F.state files.old).calls
        (F.state files.new).calls }
    ensures later { (F.state files.old).faults ≤ (F.state files.new).faults }
{
    open_file(files, path)?;
    let mut reader = SheetReader::new(alloc)?;
    feed_file(files, path, &mut reader)?;
    match reader.finish() {
        Ok(sheet) => Ok(sheet),
        Err(fault) => Err(stop_of(path, fault)),
    }
}

// Merges the sheet of a file into those before it.
fn merge_next<'a, F: Shelf>(
    alloc: Global,
    files: &mut F,
    path: &'a str,
    all: &mut Sheet,
) -> Result<(), Stop<'a>>
    ensures gives { Gives (F.state files.old).files (F.state files.old).faults
        (F.state files.new).faults (λ _. all.new) result (λ held.
        with_sheet_in held all.old path.now) }
    ensures files { (F.state files.new).files ≡ (F.state files.old).files }
    ensures reads { ReadsFile path.now (extent_of (answer_of result)) (F.state files.old).calls
        (F.state files.new).calls }
    ensures later { (F.state files.old).faults ≤ (F.state files.new).faults }
{
    let sheet = load_sheet(alloc, files, path)?;
    match all.take_in(alloc, sheet) {
        Ok(()) => Ok(()),
        Err(MergeFault::TooManyEntries) => Err(Stop::Refused(Refusal::TooManyEntries(path))),
        Err(MergeFault::Memory) => Err(Stop::Memory),
    }
}

/// The merge of the sheets of files, each of which is read and merged before the next is opened; or why there is none: a sheet
/// with a fault, or one with which they are of too many documents, a file that is too long, one that is missing or a shelf that
/// failed, or memory that ran out.
pub fn load_merged<'a, F: Shelf>(
    alloc: Global,
    files: &mut F,
    sheets: &'a Sheets,
) -> Result<Sheet, Stop<'a>>
    ensures gives { Gives (F.state files.old).files (F.state files.old).faults
        (F.state files.new).faults (λ sheet. sheet) result (λ held. merge_of held [] sheets.now) }
    ensures some { 0 < length sheets.now }
    ensures files { (F.state files.new).files ≡ (F.state files.old).files }
    ensures opened { Opens (SheetsMayOpen (F.state files.old).files sheets.now)
        (opened_in (F.state files.old).calls) (opened_in (F.state files.new).calls) }
    ensures reads { ReadsFiles (extent_of (answer_of result)) (F.state files.old).calls
        (F.state files.new).calls }
    ensures later { (F.state files.old).faults ≤ (F.state files.new).faults }
{
    let mut all = Sheet::empty(alloc);
    for path in sheets.as_slice() {
        merge_next(alloc, files, path.as_str(), &mut all)?;
    }
    Ok(all)
}
