// A session of hostile lines, over a desk of one topic with one document.
use crate::held::hears;
use crate::one_document::one_document;
use desk_model::{Desk, MeasureName, Memory};
use desk_report::Grading;
use measure_core::Maker;
use precision::Precision;
use session_replies::Given;
use std::alloc::{AllocError, Global};
use std::marker::Brand;
use std::sync::ledger::Blank;
use std::test::Fail;

// What stands before and after the number of a line, and the reply to it.
const HOSTILE: [(&str, &str, &str); 22] = [
    ("judge", " ann 401 d3 1", "no BadLine\n"),
    ("judge ann 401 d3 ", "x", "no BadLine\n"),
    ("judge ann 401 d3 1", "000", "no BadLine\n"),
    ("judge ann 401 d3 -1", "000", "no BadLine\n"),
    ("judge ann 401 d3 1 ", "", "no BadLine\n"),
    ("judge ann 401 d3\u{1}", " 1", "no BadLine\n"),
    ("judge ann 4", " d3 1", "no UnknownTopic\n"),
    ("judge ann 401 d3", " 1", "no UnknownDocument\n"),
    ("undo caller", "", "no NothingToUndo\n"),
    ("undo caller", " x", "no BadLine\n"),
    ("redo caller", "", "no NothingToRedo\n"),
    ("redo ann ", "", "no BadLine\n"),
    ("pair A X", "", "no UnknownRun\n"),
    ("pair X", " X", "no UnknownRun\n"),
    ("certify X", " A", "no UnknownRun\n"),
    ("pool 4", " 1", "no UnknownTopic\n"),
    ("pool 401 0", "", "no BadLine\n"),
    ("pool 401 ", "0001", "no BadLine\n"),
    ("table ", "", "no BadLine\n"),
    ("qrels", "", "no BadLine\n"),
    ("quit ", "", "no BadLine\n"),
    ("\u{7f}", "", "no BadLine\n"),
];

// Makes no measure, since no line here needs a table.
struct NoMeasure;

impl Maker for NoMeasure {
    type Made = Precision;

    fn make(&self, _alloc: Global, _name: MeasureName) -> Result<Precision, Memory> {
        Err(Memory)
    }
}

/// The lines of a session and the replies to them.
#[derive(Drop)]
struct Texts {
    lines: Vec<u8>,
    replies: Vec<u8>,
}

impl Texts {
    fn push(&mut self, lines: &[u8], replies: &[u8]) -> Result<(), AllocError> {
        self.lines.extend_from_slice(lines)?;
        self.replies.extend_from_slice(replies)
    }

    // Adds each hostile line with this number.
    fn push_hostile(&mut self, alloc: Global, number: u32) -> Result<(), AllocError> {
        for (before, after, reply) in &HOSTILE {
            let line = format!(in alloc; "{before}{number}{after}\n")?;
            self.push(line.as_bytes(), reply.as_bytes())?;
        }
        let lines = format!(in alloc; "pair A A\n{number:x>4097}\n")?;
        self.push(lines.as_bytes(), b"no SameRun\nno LineTooLong\n")
    }
}

// One judgement, a thousand hostile lines, and then the judgement is undone.
fn hostile_texts(alloc: Global) -> Result<Texts, AllocError> {
    let mut texts = Texts {
        lines: Vec::new(alloc),
        replies: Vec::new(alloc),
    };
    texts.push(b"judge ann 401 d3 1\n", b"judged 401 d3 1\n")?;
    for number in 0..42u32 {
        texts.push_hostile(alloc, number)?;
    }
    texts.push(
        b"qrels\nundo ann\nqrels\nundo ann\n",
        b"401 0 d3 1\nundone 401 d3 -\nno NothingToUndo\n",
    )?;
    Ok(texts)
}

// Whether a session hears these lines to their end with these replies.
fn is_answered(alloc: Global, desk: &Desk, texts: &Texts) -> Result<bool, Fail> {
    let measure = MeasureName::Precision(1);
    let given = Given {
        desk,
        measure: &measure,
        grading: Grading::new(1, None),
    };
    hears::<_, Brand>(
        alloc,
        &given,
        &NoMeasure,
        &texts.lines,
        &texts.replies,
        Blank::new(1),
    )
}

#[test]
fn a_thousand_hostile_lines_change_nothing(rt: HostRuntime) -> Result<(), Fail> {
    let alloc = rt.alloc();
    let texts = hostile_texts(alloc)?;
    let desk = one_document(alloc)?;
    assert!(rt; is_answered(alloc, &desk, &texts)?);
    Ok(())
}
