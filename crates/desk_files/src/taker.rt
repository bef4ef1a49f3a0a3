// What takes the bytes of a file in pieces.

use desk_model::Memory;
use qrels_reader::QrelsReader;
use run_reader::RunReader;
use sheet_merge::SheetReader;

/// What takes the bytes of a file in pieces.
pub trait Taker {
    ghost use Rattle.std.specs.Prelude.{◌≡◌, ◌++◌, List, ℕ, OnOk};

    // the bytes that were taken
    ghost taken: { Self → List ℕ };

    // what it reads them beside, which stays
    ghost Beside: { Type 0 };

    ghost beside: { Self → Self.Beside };

    /// Takes the next piece.
    ///
    /// # Errors
    /// `Memory` where memory runs out. The taker is given up then.
    fn take(&mut self, piece: &[u8]) -> Result<(), Memory>
        ensures taken { OnOk result (Self.taken self.new ≡ Self.taken self.old ++ piece.now) }
        ensures beside { Self.beside self.new ≡ Self.beside self.old };
}

impl Taker for QrelsReader {
    ghost taken = { λ reader. reader };

    ghost Beside = { Unit {0} };

    ghost beside = { λ _. tt };

    fn take(&mut self, piece: &[u8]) -> Result<(), Memory> {
        self.feed(piece)
    }
}

impl Taker for RunReader<'_> {
    ghost use Rattle.std.specs.Prelude.{[]};
    ghost use Rattle.run_reader.specs.Fed.{FedRun};

    ghost taken = { λ reader. reader.fed };

    ghost Beside = { FedRun };

    ghost beside = { λ reader. record reader { fed = [] } };

    fn take(&mut self, piece: &[u8]) -> Result<(), Memory> {
        self.feed(piece)
    }
}

impl Taker for SheetReader {
    ghost taken = { λ reader. reader };

    ghost Beside = { Unit {0} };

    ghost beside = { λ _. tt };

    fn take(&mut self, piece: &[u8]) -> Result<(), Memory> {
        self.feed(piece)
    }
}

impl Taker for Vec<u8> {
    ghost taken = { λ bytes. bytes.items };

    ghost Beside = { Unit {0} };

    ghost beside = { λ _. tt };

    fn take(&mut self, piece: &[u8]) -> Result<(), Memory> {
        match self.extend_from_slice(piece) {
            Ok(()) => Ok(()),
            Err(_) => Err(Memory),
        }
    }
}
