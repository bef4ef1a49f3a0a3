// Files that are taken in pieces, or whole.
ghost use Rattle.std.specs.Prelude.{◌≡◌, ◌≤◌, ◌++◌, ◌∷◌, [], true, List, map, IfErr, OnOk};
ghost use Rattle.desk_outside.specs.Calls.{Opening, Reading};
ghost use Rattle.desk_outside.specs.Outside.{Opens};
ghost use Rattle.desk_files.specs.Files.{whole_file};
ghost use Rattle.desk_files.specs.Outcome.{Gives, Stops};
ghost use Rattle.desk_files.specs.Reads.{GoTo, ReadsFile, extent_of};
ghost use Rattle.desk_files.specs.Views.{answer_of};
ghost use Rattle.desk_files.specs.declared.stop.Stop.TheVariants.{Outside};
ghost use Rattle.desk_outside.specs.declared.log.ReadCall.{ReadCall};

use crate::limits::LONGEST_FILE;
use crate::stop::{Refusal, Stop};
use crate::taker::Taker;
use desk_outside::Shelf;
use std::alloc::Global;

const ROOM: usize = 65_536;

/// Opens a file, to be fed from its first byte on.
pub fn open_file<'a, F: Shelf>(files: &mut F, path: &'a str) -> Result<(), Stop<'a>>
    ensures stops { IfErr result (λ stop.
        Stops (F.state files.old).files (F.state files.old).faults (F.state files.new).faults stop
        (λ held. whole_file path.now (held path.now))) }
    ensures outside { IfErr result (λ stop. stop ≡ Outside) }
    ensures open { OnOk result ((F.state files.new).is_open ≡ true) }
    ensures content { OnOk result
        (Opens (F.state files.old).files path.now (F.state files.new).rest) }
    ensures files { (F.state files.new).files ≡ (F.state files.old).files }
    ensures calls { (F.state files.new).calls ≡ (F.state files.old).calls ++ Opening path.now ∷ [] }
    ensures later { (F.state files.old).faults ≤ (F.state files.new).faults }
{
    let Ok(()) = files.open(path) else {
        return Err(Stop::Outside);
    };
    Ok(())
}

/// Feeds the open file, of this path, to a taker that took nothing yet, if it is not too long. It is read in pieces to its end
/// and no further, or until one byte more than the limit was taken.
pub fn feed_file<'a, F: Shelf, T: Taker>(
    files: &mut F,
    path: &'a str,
    taker: &mut T,
) -> Result<(), Stop<'a>>
    requires open { (F.state files.old).is_open ≡ true }
    requires content { Opens (F.state files.old).files path.now (F.state files.old).rest }
    requires none { T.taken taker.old ≡ [] }
    ensures gives { Gives (F.state files.old).files (F.state files.old).faults
        (F.state files.new).faults (λ _. T.taken taker.new) result (λ held.
        whole_file path.now (held path.now)) }
    ensures beside { T.beside taker.new ≡ T.beside taker.old }
    ensures files { (F.state files.new).files ≡ (F.state files.old).files }
    ensures reads { (reads : List ReadCall) ×
        ((F.state files.new).calls ≡ (F.state files.old).calls ++ map Reading reads) ×
        GoTo (extent_of (answer_of result)) reads }
    ensures later { (F.state files.old).faults ≤ (F.state files.new).faults }
{
    let mut count = 0;
    let mut room = [0u8; ROOM];
    'pieces: while count <= LONGEST_FILE {
        let most = ROOM.min(LONGEST_FILE + 1 - count);
        let Ok(read) = files.read(&mut room[..most]) else {
            return Err(Stop::Outside);
        };
        if read == 0 {
            return Ok(());
        }
        taker.take(&room[..read])?;
        count += read;
    }
    Err(Stop::Refused(Refusal::FileTooLong(path)))
}

/// A whole file, if it is not too long.
pub fn read_file<'a, F: Shelf>(
    alloc: Global,
    files: &mut F,
    path: &'a str,
) -> Result<Vec<u8>, Stop<'a>>
    ensures gives { Gives (F.state files.old).files (F.state files.old).faults
        (F.state files.new).faults (λ v. v.items) result (λ held.
        whole_file path.now (held path.now)) }
    ensures files { (F.state files.new).files ≡ (F.state files.old).files }
    ensures reads { ReadsFile path.now (extent_of (answer_of result)) (F.state files.old).calls
        (F.state files.new).calls }
    ensures later { (F.state files.old).faults ≤ (F.state files.new).faults }
{
    open_file(files, path)?;
    let mut bytes = Vec::new(alloc);
    feed_file(files, path, &mut bytes)?;
    Ok(bytes)
}
