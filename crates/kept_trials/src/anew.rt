// What a session has kept while documents were judged, beside what one makes anew that has the same judgements: over
// the demo of seed 7, with 50 topics and 28 pairs of runs.
use crate::session::{counts, replies};
use any_measure::Common;
use demo_desk::{Generator, RUNS, qrels_text, run_text};
use std::alloc::{AllocError, Global};
use std::process::Abort;
use std::test::Fail;

const SESSION: &str = "session --qrels q --measure P_10 r1 r2 r3 r4 r5 r6 r7 r8";

const NAMES: [&str; 9] = ["q", "r1", "r2", "r3", "r4", "r5", "r6", "r7", "r8"];

const REPORTS: &[u8] = b"next\ntable\n";

// The judgements of the demo, and then its runs.
fn demo_texts(alloc: Global) -> Result<Vec<Vec<u8>>, Fail> {
    let mut generator = Generator::new(7);
    let mut texts = Vec::new(alloc);
    texts.push(qrels_text(alloc, &mut generator)?)?;
    for run in 0..RUNS {
        texts.push(run_text(alloc, &mut generator, run)?)?;
    }
    Ok(texts)
}

/// The course of a session: a document is judged, `next` and `table` are asked for, and so on.
#[derive(Drop)]
struct Course {
    /// The lines that judge, alone.
    judging: Vec<u8>,
    /// The replies to these.
    judged: Vec<u8>,
    /// All lines of the session.
    lines: Vec<u8>,
    /// What is expected as replies to all lines.
    expected: Vec<u8>,
}

fn add_line(text: &mut Vec<u8>, before: &[u8], document: &[u8]) -> Result<(), AllocError> {
    text.extend_from_slice(before)?;
    text.extend_from_slice(document)
}

impl Course {
    fn new(alloc: Global) -> Course {
        Course {
            judging: Vec::new(alloc),
            judged: Vec::new(alloc),
            lines: Vec::new(alloc),
            expected: Vec::new(alloc),
        }
    }

    // Judges a document, which is given with its topic and its grade.
    fn judge(&mut self, document: &[u8]) -> Result<(), AllocError> {
        add_line(&mut self.judging, b"judge ann ", document)?;
        add_line(&mut self.lines, b"judge ann ", document)?;
        add_line(&mut self.judged, b"judged ", document)?;
        add_line(&mut self.expected, b"judged ", document)
    }

    // Asks for what is next and for the table, with what is expected.
    fn ask(&mut self, reports: &[u8]) -> Result<(), AllocError> {
        self.lines.extend_from_slice(REPORTS)?;
        self.expected.extend_from_slice(reports)
    }
}

// What a session replies that judges first, and then makes its table and its totals.
fn made_anew(
    alloc: Global,
    files: &[(&str, &[u8])],
    judging: &[u8],
) -> Result<Vec<u8>, AllocError> {
    let mut lines = judging.to_vec(alloc)?;
    lines.extend_from_slice(REPORTS)?;
    replies(alloc, SESSION, files, &lines, &Common)
}

// The document that `next` proposes, with its topic and a grade. The reply begins as `next 401 D1099`.
fn proposed(alloc: Global, reports: &[u8], grade: u32) -> Result<Vec<u8>, AllocError> {
    let mut document = Vec::new(alloc);
    for letter in reports.iter().skip(5).take(9) {
        document.push(*letter)?;
    }
    document.extend_from_slice(if grade == 0 { b" 0\n" } else { b" 1\n" })?;
    Ok(document)
}

// Asks for the reports, which are those of a session that is made anew, and judges the document that they propose.
fn follow(
    rt: &impl Abort,
    alloc: Global,
    files: &[(&str, &[u8])],
    course: &mut Course,
    grade: Option<u32>,
) -> Result<(), AllocError> {
    let said = made_anew(alloc, files, &course.judging)?;
    assert!(rt; said.starts_with(&course.judged));
    let reports = &said[course.judged.len()..];
    course.ask(reports)?;
    let Some(grade) = grade else {
        return Ok(());
    };
    let document = proposed(alloc, reports, grade)?;
    course.judge(&document)
}

fn course_of(
    rt: &impl Abort,
    alloc: Global,
    files: &[(&str, &[u8])],
) -> Result<Course, AllocError> {
    let mut course = Course::new(alloc);
    for judgements in 0..100u32 {
        follow(rt, alloc, files, &mut course, Some(judgements % 2))?;
    }
    follow(rt, alloc, files, &mut course, None)?;
    Ok(course)
}

fn expect_kept(rt: &impl Abort, alloc: Global, files: &[(&str, &[u8])]) -> Result<(), AllocError> {
    let course = course_of(rt, alloc, files)?;
    let (cells, _) = counts(rt, alloc, SESSION, files, &course.lines, &course.expected)?;
    assert!(rt; cells >= 1_400 && cells <= 4_200, "{cells} cells");
    Ok(())
}

#[test]
fn kept_tables_and_totals_equal_new_ones(rt: HostRuntime) -> Result<(), Fail> {
    let alloc = rt.alloc();
    let texts = demo_texts(alloc)?;
    let mut files = Vec::new(alloc);
    for (name, text) in NAMES.iter().zip(texts.iter()) {
        files.push((*name, text.as_slice()))?;
    }
    expect_kept(&rt, alloc, &files)?;
    Ok(())
}
