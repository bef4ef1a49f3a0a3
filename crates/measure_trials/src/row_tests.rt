//! Each call of each measure once, by hand.
ghost use Rattle.desk_model.specs.MeasureText.{IsMeasure};

use crate::answers::{Answers, ask};
use crate::tests::{HALF, O, R, U, WHOLE};
use desk_model::{Mark, MeasureName};
use std::alloc::Global;
use std::process::Abort;
use std::test::Fail;
use topic_counts::Span;

const QUARTER: i128 = 250_000_000_000_000_000;

/// Two runs of two documents each on a topic, and what a measure says of them. The weight is that of the first run's
/// first document.
struct Row {
    first: [u32; 2],
    second: [u32; 2],
    marks: &'static [Mark],
    unit: i128,
    least: (i128, i128),
    most: (i128, i128),
    bounds: (i128, i128),
    weight: u128,
    least_case: &'static [bool],
    most_case: &'static [bool],
}

const PRECISION: Row = Row {
    first: [0, 2],
    second: [1, 2],
    marks: &[R, O, U],
    unit: 2,
    least: (1, 1),
    most: (1, 1),
    bounds: (1, 2),
    weight: 1,
    least_case: &[true, false, false],
    most_case: &[true, false, false],
};

const RECALL: Row = Row {
    first: [0, 2],
    second: [1, 2],
    marks: &[R, O, U],
    unit: WHOLE,
    least: (HALF, HALF),
    most: (WHOLE, WHOLE),
    bounds: (HALF, WHOLE),
    weight: 1,
    least_case: &[true, false, true],
    most_case: &[true, false, false],
};

const R_PRECISION: Row = Row {
    first: [0, 2],
    second: [1, 2],
    marks: &[U, U, O],
    unit: WHOLE,
    least: (-WHOLE, -WHOLE),
    most: (WHOLE, WHOLE),
    bounds: (0, WHOLE),
    weight: 1,
    least_case: &[false, true, false],
    most_case: &[true, false, false],
};

const RECIPROCAL: Row = Row {
    first: [1, 0],
    second: [0, 1],
    marks: &[R, U],
    unit: WHOLE,
    least: (-HALF, -HALF),
    most: (0, 0),
    bounds: (HALF, WHOLE),
    weight: HALF as u128,
    least_case: &[true, false],
    most_case: &[true, true],
};

const BIASED: Row = Row {
    first: [0, 1],
    second: [1, 0],
    marks: &[R, U],
    unit: WHOLE,
    least: (-QUARTER, 1 - QUARTER),
    most: (HALF - 1, HALF),
    bounds: (HALF, WHOLE),
    weight: QUARTER as u128,
    least_case: &[true, true],
    most_case: &[true, false],
};

const AVERAGE: Row = Row {
    first: [0, 1],
    second: [1, 0],
    marks: &[R, U],
    unit: WHOLE,
    least: (0, 0),
    most: (HALF, HALF),
    bounds: (WHOLE, WHOLE),
    weight: HALF as u128,
    least_case: &[true, true],
    most_case: &[true, false],
};

fn is_span(span: Span, ends: (i128, i128)) -> bool {
    span.lo == ends.0 && span.hi == ends.1
}

fn has_numbers(answers: &Answers, row: &Row) -> bool {
    answers.unit == row.unit
        && is_span(answers.cell.least, row.least)
        && is_span(answers.cell.most, row.most)
        && is_span(answers.bounds, row.bounds)
        && answers.weight == row.weight
}

fn has_cases(answers: &Answers, row: &Row) -> bool {
    answers.least_case.as_slice() == row.least_case && answers.most_case.as_slice() == row.most_case
}

fn expect(rt: &impl Abort, alloc: Global, name: MeasureName, row: &Row) -> Result<(), Fail>
    requires { IsMeasure name }
{
    let runs = (row.first.as_slice(), row.second.as_slice());
    let answers = ask(rt, alloc, name, runs, row.marks, row.first[0])?;
    let holds = has_numbers(&answers, row) && has_cases(&answers, row);
    assert!(rt; holds);
    Ok(())
}

#[test]
fn measures_by_hand(rt: HostRuntime) -> Result<(), Fail> {
    let alloc = rt.alloc();
    expect(&rt, alloc, MeasureName::Precision(2), &PRECISION)?;
    expect(&rt, alloc, MeasureName::Recall(1), &RECALL)?;
    expect(&rt, alloc, MeasureName::RPrecision, &R_PRECISION)?;
    expect(&rt, alloc, MeasureName::Reciprocal, &RECIPROCAL)?;
    let biased = MeasureName::Biased { top: 5, bottom: 10 };
    expect(&rt, alloc, biased, &BIASED)?;
    expect(&rt, alloc, MeasureName::AveragePrecision, &AVERAGE)
}
