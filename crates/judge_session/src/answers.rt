/// What a call made of a change: its document, and the grade in force there after the call.
#[derive(Clone, Copy, PartialEq, Eq)]
pub struct Changed {
    /// The number of the topic in the desk, from 0.
    pub topic: u32,
    /// The number of the document in the topic's universe, from 0.
    pub doc: u32,
    /// The grade in force, from 0, and `None` exactly where the document has none.
    pub grade: Option<i32>,
}

/// Why a judgement was refused. The first that holds is told, and `Memory` only where none of the others does.
#[derive(Clone, Copy, PartialEq, Eq, Debug)]
pub enum JudgeFault {
    /// The desk has no topic of this name.
    UnknownTopic,
    /// The topic's universe has no document of this name.
    UnknownDocument,
    /// 1,000,000 changes would be left after the caller's undone ones were dropped and before the new one came.
    HistoryFull,
    /// Out of memory.
    Memory,
}

/// The caller has no live change.
#[derive(Clone, Copy, PartialEq, Eq, Debug)]
pub struct NothingToUndo;

/// The caller has no undone change.
#[derive(Clone, Copy, PartialEq, Eq, Debug)]
pub struct NothingToRedo;
