//! The desk and the sheet of a placing.
ghost use Rattle.std.specs.Prelude.{◌≡◌, ◌≤◌, true, All, IfOk, OnOk, IfErr};
ghost use Rattle.desk_outside.specs.Calls.{opened_in};
ghost use Rattle.sheet_merge.specs.Placed.{is_placed};
ghost use Rattle.desk_files.specs.Load.{Opens};
ghost use Rattle.desk_files.specs.Lacks.{TellsLack};
ghost use Rattle.desk_files.specs.Placings.{MakesPlacing, PlacingMayOpen};
ghost use Rattle.desk_files.specs.Reads.{ReadsFiles, extent_of};
ghost use Rattle.desk_files.specs.Views.{answer_of};

use crate::desk::load_desk;
use crate::sheets::load_sheet;
use crate::stop::{Refusal, Stop};
use desk_model::Desk;
use desk_outside::Shelf;
use desk_words::Placing;
use sheet_merge::{NotPlaced, Sheet};
use std::alloc::Global;

// Whether each entry of the sheet of this path has its place in the desk; else why the sheet is refused.
fn check_places<'a>(
    alloc: Global,
    path: &'a str,
    desk: &Desk,
    sheet: &Sheet,
) -> Result<(), Stop<'a>>
    ensures all { OnOk result (All (λ row. is_placed desk.now row.0 ≡ true) sheet.now) }
    ensures first { IfErr result (TellsLack path.now desk.now sheet.now) }
{
    match sheet.placed(desk) {
        Ok(()) => Ok(()),
        Err(NotPlaced::UnknownTopic { topic }) => {
            let topic = Vec::from_slice(alloc, topic)?;
            Err(Stop::Refused(Refusal::UnknownTopic(path, topic)))
        }
        Err(NotPlaced::UnknownDocument { topic, doc }) => {
            let topic = Vec::from_slice(alloc, topic)?;
            let doc = Vec::from_slice(alloc, doc)?;
            Err(Stop::Refused(Refusal::UnknownDocument(path, topic, doc)))
        }
    }
}

/// The desk of a placing, and after it the sheet, each of whose entries has its place in the desk; or why there is none, as for
/// each, or the first entry that has no place: its topic is not in the desk, or that is there and the document is not in its
/// universe.
pub fn load_placing<'a, F: Shelf>(
    alloc: Global,
    files: &mut F,
    placing: &'a Placing,
) -> Result<(Desk, Sheet), Stop<'a>>
    ensures makes { MakesPlacing (F.state files.old).files (F.state files.old).faults
        (F.state files.new).faults placing.now result }
    ensures placed { IfOk result (λ made. All (λ row. is_placed made.0 row.0 ≡ true) made.1) }
    ensures files { (F.state files.new).files ≡ (F.state files.old).files }
    ensures opened { Opens (PlacingMayOpen (F.state files.old).files placing.now)
        (opened_in (F.state files.old).calls) (opened_in (F.state files.new).calls) }
    ensures reads { ReadsFiles (extent_of (answer_of result)) (F.state files.old).calls
        (F.state files.new).calls }
    ensures later { (F.state files.old).faults ≤ (F.state files.new).faults }
{
    let desk = load_desk(alloc, files, &placing.qrels, &placing.runs, 1)?;
    let path = placing.sheet.as_str();
    let sheet = load_sheet(alloc, files, path)?;
    check_places(alloc, path, &desk, &sheet)?;
    Ok((desk, sheet))
}
