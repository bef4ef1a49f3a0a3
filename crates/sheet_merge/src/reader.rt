// A reader of a sheet in pieces.
ghost use Rattle.std.specs.Prelude.{◌≡◌, ◌++◌, [], IfOk};
ghost use Rattle.sheet_merge.specs.Lines.{sheet_of, IsSheetUnlessMemory};

use crate::entry_reader::EntryReader;
use crate::fault::SheetFault;
use crate::sheet::Sheet;
use desk_model::Memory;
use file_rows::{Fed, Pieces};
use std::alloc::Global;
use std::marker::Model;

/// Reads a sheet whose bytes arrive in pieces, of any length and cut anywhere. A clause sees the bytes that it was fed so far. It keeps
/// an entry for each document, at most one line that has not ended, and the first fault, after which it keeps nothing more.
#[derive(Drop)]
pub struct SheetReader {
    fed: Fed,
    pieces: Pieces<EntryReader>,
}

impl Model for SheetReader {
    ghost use Rattle.std.specs.Prelude.{List, ℕ};

    ghost Value = { List ℕ };

    ghost use Rattle.sheet_merge.specs.Fed.{IsSheetFed};

    ghost view = { λ r. r.fed.bytes };

    ghost invariant = { λ r. IsSheetFed r.pieces r.fed.bytes };
}

impl SheetReader {
    /// A reader that was fed nothing.
    ///
    /// # Errors
    /// `Memory` where there is no room for a line.
    pub fn new(alloc: Global) -> Result<SheetReader, Memory>
        ensures { IfOk result (λ reader. reader ≡ []) }
    {
        Ok(SheetReader {
            fed: Fed::new(),
            pieces: Pieces::new(alloc, EntryReader::new(alloc))?,
        })
    }

    /// Takes the next piece of the file. A faulty line is told by `finish`.
    ///
    /// # Errors
    /// `Memory` where memory runs out. The reader is given up then: `finish` answers `Memory`.
    pub fn feed(&mut self, piece: &[u8]) -> Result<(), Memory>
        ensures { self.new ≡ self.old ++ piece.now }
    {
        self.pieces.feed(piece);
        self.fed.note(piece);
        if self.pieces.reader.lacks_memory() {
            return Err(Memory);
        }
        Ok(())
    }

    /// The sheet that the bytes fed are, taken as one file.
    ///
    /// # Errors
    /// The first faulty line of these bytes with its first fault; or `Memory`, which may come in the place of any answer.
    pub fn finish(self) -> Result<Sheet, SheetFault>
        ensures { IsSheetUnlessMemory result (sheet_of self) }
    {
        let SheetReader { fed, pieces } = self;
        pieces.end().finish(&fed)
    }
}
