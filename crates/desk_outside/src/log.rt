// What calls did, as clauses alone read it: it takes no memory.
use std::snapshot::Snapshot;

/// The bytes of a name.
#[derive(Drop)]
pub enum Bytes {
    /// No byte.
    Empty,
    /// These, and one more.
    Longer(Snapshot<Bytes>, u8),
}

/// What a read did.
#[derive(Clone, Copy)]
pub enum ReadCall {
    /// It gave so many bytes; none at the end.
    Gave(usize),
    /// It failed.
    Failed,
}

/// The calls of a shelf, in order.
#[derive(Drop)]
pub enum ShelfLog {
    /// No call.
    Start,
    /// These, and then a file of this name was to be opened.
    Opening(Snapshot<ShelfLog>, Snapshot<Bytes>),
    /// These, and then the open file was read.
    Reading(Snapshot<ShelfLog>, ReadCall),
}

/// The reads of a source, in order.
#[derive(Drop)]
pub enum SourceLog {
    /// No read.
    Start,
    /// These, and one more.
    Reading(Snapshot<SourceLog>, ReadCall),
}
