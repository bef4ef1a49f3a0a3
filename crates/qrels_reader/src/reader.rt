// A reader of a qrels file in pieces.
ghost use Rattle.std.specs.Prelude.{◌≡◌, ◌++◌, [], IfOk};
ghost use Rattle.file_rows.specs.Reading.{IsUnlessMemory};
ghost use Rattle.qrels_reader.specs.Grouped.{qrels_of};

use crate::qrels::Qrels;
use crate::row_reader::RowReader;
use desk_model::Memory;
use file_rows::{Fed, FileFault, Pieces};
use std::alloc::Global;
use std::marker::Model;

/// Reads a qrels file whose bytes arrive in pieces, of any length and cut anywhere. A clause sees the bytes that it was fed so far.
/// It keeps the rows, at most one line that has not ended, and the first fault, after which it keeps nothing more.
#[derive(Drop)]
pub struct QrelsReader {
    fed: Fed,
    pieces: Pieces<RowReader>,
}

impl Model for QrelsReader {
    ghost use Rattle.std.specs.Prelude.{List, ℕ};

    ghost Value = { List ℕ };

    ghost use Rattle.qrels_reader.specs.Fed.{IsFed};

    ghost view = { λ r. r.fed.bytes };

    ghost invariant = { λ r. IsFed r.pieces r.fed.bytes };
}

impl QrelsReader {
    /// A reader that was fed nothing.
    ///
    /// # Errors
    /// `Memory` where there is no room for a line.
    pub fn new(alloc: Global) -> Result<QrelsReader, Memory>
        ensures { IfOk result (λ reader. reader ≡ []) }
    {
        Ok(QrelsReader {
            fed: Fed::new(),
            pieces: Pieces::new(alloc, RowReader::new(alloc))?,
        })
    }

    /// Takes the next piece of the file. A faulty line is told by `finish`.
    ///
    /// # Errors
    /// `Memory` where memory runs out. The reader is given up then: `finish` answers `Memory`.
    pub fn feed(&mut self, piece: &[u8]) -> Result<(), Memory>
        ensures { self.new ≡ self.old ++ piece.now }
    {
        self.pieces.feed(piece);
        self.fed.note(piece);
        if self.pieces.reader.lacks_memory() {
            return Err(Memory);
        }
        Ok(())
    }

    /// The rows that the bytes fed say, taken as one file.
    ///
    /// # Errors
    /// The first refusal of these bytes; or `Memory`, which may come in the place of any answer.
    pub fn finish(self) -> Result<Qrels, FileFault>
        ensures { IsUnlessMemory result (qrels_of self) }
    {
        let QrelsReader { fed, pieces } = self;
        pieces.end().finish(&fed)
    }
}
