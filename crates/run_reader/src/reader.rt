// A reader of a run file in pieces.
ghost use Rattle.std.specs.Prelude.{◌≡◌, ◌++◌, [], true, All, IfOk, IfSome, option_map};
ghost use Rattle.std.specs.Option.{option_copied};
ghost use Rattle.desk_model.specs.Name.{is_name};
ghost use Rattle.file_rows.specs.Reading.{IsUnlessMemory};
ghost use Rattle.file_rows.specs.Grouped.{is_topic, names_of};
ghost use Rattle.run_reader.specs.Run.{run_of, IsWithinLimits};

use crate::row_reader::{Beside, RowReader};
use crate::run_rows::RunRows;
use crate::used::Used;
use desk_model::{Memory, Name};
use file_rows::{Fed, FileFault, Pieces};
use qrels_reader::Qrels;
use std::alloc::Global;
use std::marker::Model;

/// Reads a run file whose bytes arrive in pieces, of any length and cut anywhere. A clause sees the bytes that it was fed so far,
/// and what they are read beside: the name that is given, what earlier files used, and the qrels. It keeps the rows on topics of the
/// qrels, at most one line that has not ended, and the first fault, after which it keeps nothing more.
#[derive(Drop)]
pub struct RunReader<'q> {
    fed: Fed,
    pieces: Pieces<RowReader<'q>>,
}

impl<'q> Model for RunReader<'q> {
    ghost use Rattle.run_reader.specs.Fed.{FedRun};

    ghost Value = { FedRun };

    ghost use Rattle.run_reader.specs.Fed.{fed_run, IsFed};

    ghost view = { λ r. fed_run r.pieces r.fed.bytes };

    ghost invariant = { λ r. IsFed r.pieces r.fed.bytes };
}

impl<'q> RunReader<'q> {
    /// A reader that was fed nothing. It copies the name that is given. `used` is what the qrels and the earlier runs used.
    ///
    /// # Errors
    /// `Memory` where there is no room for a line or for the name.
    pub fn new(
        alloc: Global,
        name: Option<&[u8]>,
        used: Used,
        qrels: &'q Qrels,
    ) -> Result<RunReader<'q>, Memory>
        requires name { IfSome name (λ n. is_name n.now ≡ true) }
        requires within { IsWithinLimits used }
        ensures { IfOk result (λ reader. reader ≡
            record { fed = []; given = option_copied name.entry; used = used; qrels = qrels.now }) }
    {
        let given = copied(alloc, name)?;
        let beside = Beside { qrels, used, given };
        let pieces = Pieces::new(alloc, RowReader::new(alloc, beside))?;
        Ok(RunReader {
            fed: Fed::new(),
            pieces,
        })
    }

    /// Takes the next piece of the file. A faulty line is told by `finish`.
    ///
    /// # Errors
    /// `Memory` where memory runs out. The reader is given up then: `finish` answers `Memory`.
    pub fn feed(&mut self, piece: &[u8]) -> Result<(), Memory>
        ensures { self.new ≡ record self.old { fed = self.old.fed ++ piece.now } }
    {
        self.pieces.feed(piece);
        self.fed.note(piece);
        if self.pieces.reader.lacks_memory() {
            return Err(Memory);
        }
        Ok(())
    }

    /// The run that the bytes fed say, taken as one file.
    ///
    /// # Errors
    /// The first refusal of these bytes; or `Memory`, which may come in the place of any answer.
    pub fn finish(self) -> Result<RunRows, FileFault>
        ensures run { IsUnlessMemory result
            (run_of self.entry.given self.entry.qrels self.entry.used self.entry.fed) }
        ensures known { IfOk result (λ run.
            All (λ topic. is_topic topic self.entry.qrels ≡ true) (names_of run.topics)) }
    {
        let RunReader { fed, pieces } = self;
        pieces.end().finish(&fed)
    }
}

fn copied(alloc: Global, name: Option<&[u8]>) -> Result<Option<Name>, Memory>
    requires { IfSome name (λ n. is_name n.now ≡ true) }
    ensures { IfOk result (λ copy. copy ≡ option_copied name.entry) }
{
    match name {
        Some(name) => Ok(Some(Name::copy_of(alloc, name)?)),
        None => Ok(None),
    }
}
