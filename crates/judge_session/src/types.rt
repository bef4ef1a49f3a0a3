// What a line asks.

/// What a line of a session asks. Its names borrow the line.
#[derive(Clone, Copy, PartialEq, Eq)]
pub enum Request<'a> {
    /// `judge WHO TOPIC DOC GRADE`: a caller judges a document.
    Judge {
        /// The name of the caller.
        who: &'a [u8],
        /// The name of the topic.
        topic: &'a [u8],
        /// The name of the document.
        doc: &'a [u8],
        /// The grade, from -1,000 to 1,000.
        grade: i32,
    },
    /// `undo WHO`: a caller takes a change back.
    Undo {
        /// The name of the caller.
        who: &'a [u8],
    },
    /// `redo WHO`: a caller makes an undone change again.
    Redo {
        /// The name of the caller.
        who: &'a [u8],
    },
    /// `table`: the table of all pairs.
    Table,
    /// `pair FIRST SECOND`: how two runs compare.
    Pair {
        /// The name of a run.
        first: &'a [u8],
        /// The name of a run.
        second: &'a [u8],
    },
    /// `certify FIRST SECOND`: the certificate of two runs.
    Certify {
        /// The name of a run.
        first: &'a [u8],
        /// The name of a run.
        second: &'a [u8],
    },
    /// `pool TOPIC DEPTH`: the counts of a topic's pool.
    Pool {
        /// The name of the topic.
        topic: &'a [u8],
        /// The depth, from 1 to 10,000.
        depth: u32,
    },
    /// `next`: the document to judge next.
    Next,
    /// `qrels`: all judgements in force.
    Qrels,
    /// `quit`: the end of the session.
    Quit,
}

/// What a session hears in a line.
#[derive(Clone, Copy, PartialEq, Eq)]
pub enum Heard<'a> {
    /// The line holds nothing but separators, and is passed over.
    Blank,
    /// The line has more than 4,096 bytes.
    TooLong,
    /// The line is not blank and asks nothing that a session knows.
    Bad,
    /// The line asks this.
    Asked(Request<'a>),
}
