// The calls that were made, as clauses alone read them.
ghost use Rattle.std.specs.Prelude.{◌≡◌, ◌++◌, ◌∷◌, []};
ghost use Rattle.desk_outside.specs.Calls.{Opening, Reading, bytes_of, shelf_calls, source_reads, read_of};

use crate::Failed;
use crate::log::{Bytes, ReadCall, ShelfLog, SourceLog};
use std::snapshot::Snapshot;

// One more byte.
fn lengthen(bytes: &mut Bytes, byte: u8)
    ensures { bytes_of bytes.new ≡ bytes_of bytes.old ++ byte ∷ [] }
{
    let before = Snapshot::of(bytes);
    *bytes = Bytes::Longer(before, byte);
}

// The bytes of a name.
fn bytes_of(name: &str) -> Bytes
    ensures { bytes_of result ≡ name.now }
{
    let mut bytes = Bytes::Empty;
    for &byte in name.as_bytes() {
        lengthen(&mut bytes, byte);
    }
    bytes
}

fn read_call(answer: &Result<usize, Failed>) -> ReadCall
    ensures { result ≡ read_of answer.now }
{
    match answer {
        Ok(count) => ReadCall::Gave(*count),
        Err(_) => ReadCall::Failed,
    }
}

/// Adds that a file of this name was to be opened.
pub fn add_opening(calls: &mut ShelfLog, name: &str)
    ensures { shelf_calls calls.new ≡ shelf_calls calls.old ++ Opening name.now ∷ [] }
{
    let before = Snapshot::of(calls);
    let bytes = bytes_of(name);
    *calls = ShelfLog::Opening(before, Snapshot::of(&bytes));
}

/// Adds that the open file was read, with this answer.
pub fn add_reading(calls: &mut ShelfLog, answer: &Result<usize, Failed>)
    ensures { shelf_calls calls.new ≡ shelf_calls calls.old ++ Reading (read_of answer.now) ∷ [] }
{
    let before = Snapshot::of(calls);
    *calls = ShelfLog::Reading(before, read_call(answer));
}

/// Adds that a source was read, with this answer.
pub fn add_read(reads: &mut SourceLog, answer: &Result<usize, Failed>)
    ensures { source_reads reads.new ≡ source_reads reads.old ++ read_of answer.now ∷ [] }
{
    let before = Snapshot::of(reads);
    *reads = SourceLog::Reading(before, read_call(answer));
}
