ghost use Rattle.std.specs.Prelude.{◌^◌, ◌≤◌};
ghost use Rattle.desk_model.specs.MeasureText.{IsMeasure};
ghost use Rattle.every_completion.specs.Walk.{LooksAtNoTail};

use crate::answers::{Answers, ask, ranking};
use crate::plain::judged;
use desk_model::{Mark, MeasureName};
use every_completion::{EndsFault, ExtremeEnds, extremes};
use std::alloc::Global;
use std::process::Abort;
use std::test::Fail;
use topic_counts::Span;

pub const R: Mark = Mark::Relevant;

pub const O: Mark = Mark::Other;

pub const U: Mark = Mark::Unjudged;

const S: u64 = 1_000_000_000_000_000_000;

pub const HALF: i128 = 500_000_000_000_000_000;

pub const WHOLE: i128 = 1_000_000_000_000_000_000;

pub const RANKINGS: [&[u32]; 8] = [
    &[],
    &[0],
    &[3, 1],
    &[0, 1, 2],
    &[2, 3, 0],
    &[3, 2, 1, 0],
    &[1, 0, 3, 2],
    &[0, 2, 1, 3],
];

pub const MARKS: [[Mark; 4]; 6] = [
    [U, U, U, U],
    [R, U, O, U],
    [U, O, R, U],
    [O, U, U, R],
    [R, R, O, O],
    [O, U, O, U],
];

fn walk(
    rt: &impl Abort,
    alloc: Global,
    measure: MeasureName,
    unit: u64,
    runs: (&[u32], &[u32]),
    marks: &[Mark],
) -> Result<Result<ExtremeEnds, EndsFault>, Fail>
    requires measure { LooksAtNoTail measure }
    requires unit { unit ≤ 10 ^ 18 }
{
    assert!(rt; marks.len() <= 100);
    let universe = marks.len() as u32;
    let first = ranking(rt, alloc, runs.0, universe)?;
    let second = ranking(rt, alloc, runs.1, universe)?;
    Ok(extremes(alloc, measure, unit, &first, &second, marks))
}

fn walked(
    rt: &impl Abort,
    alloc: Global,
    measure: MeasureName,
    unit: u64,
    runs: (&[u32], &[u32]),
    marks: &[Mark],
) -> Result<ExtremeEnds, Fail>
    requires measure { LooksAtNoTail measure }
    requires unit { unit ≤ 10 ^ 18 }
{
    Ok(walk(rt, alloc, measure, unit, runs, marks)??)
}

fn ends(least: (i128, i128), most: (i128, i128)) -> ExtremeEnds {
    ExtremeEnds {
        least_lo: least.0,
        least_hi: least.1,
        most_lo: most.0,
        most_hi: most.1,
    }
}

/// Two runs on a topic, and the ends of their least and of their greatest difference.
struct Pair {
    first: &'static [u32],
    second: &'static [u32],
    marks: &'static [Mark],
    least: (i128, i128),
    most: (i128, i128),
}

/// What is in both runs cancels.
const PRECISION: [Pair; 2] = [
    Pair {
        first: &[0, 2],
        second: &[1, 2],
        marks: &[R, O, U],
        least: (1, 1),
        most: (1, 1),
    },
    Pair {
        first: &[0],
        second: &[1, 0],
        marks: &[R, U],
        least: (-1, -1),
        most: (0, 0),
    },
];

const THIRD: i128 = 333_333_333_333_333_333;

/// Documents that neither run has count as well.
const RECALL: [Pair; 4] = [
    Pair {
        first: &[0],
        second: &[1],
        marks: &[R, O, U, U],
        least: (THIRD, THIRD + 1),
        most: (WHOLE, WHOLE),
    },
    Pair {
        first: &[0],
        second: &[2, 3],
        marks: &[R, O, U, U],
        least: (0, 0),
        most: (WHOLE, WHOLE),
    },
    Pair {
        first: &[1],
        second: &[2, 3],
        marks: &[R, O, U, U],
        least: (-HALF, -HALF),
        most: (0, 0),
    },
    Pair {
        first: &[0],
        second: &[],
        marks: &[R, U],
        least: (HALF, HALF),
        most: (WHOLE, WHOLE),
    },
];

const RECIPROCAL: [Pair; 1] = [Pair {
    first: &[1, 0],
    second: &[0, 1],
    marks: &[R, U],
    least: (-HALF, -HALF),
    most: (0, 0),
}];

const R_PRECISION: [Pair; 1] = [Pair {
    first: &[0],
    second: &[1],
    marks: &[U, U, O],
    least: (-WHOLE, -WHOLE),
    most: (WHOLE, WHOLE),
}];

fn expect_pairs(
    rt: &impl Abort,
    alloc: Global,
    measure: MeasureName,
    unit: u64,
    pairs: &[Pair],
) -> Result<(), Fail>
    requires measure { LooksAtNoTail measure }
    requires unit { unit ≤ 10 ^ 18 }
{
    for pair in pairs {
        let found = walked(
            rt,
            alloc,
            measure,
            unit,
            (pair.first, pair.second),
            pair.marks,
        )?;
        assert!(rt; found == ends(pair.least, pair.most));
    }
    Ok(())
}

#[test]
fn walks_by_hand(rt: HostRuntime) -> Result<(), Fail> {
    let alloc = rt.alloc();
    expect_pairs(&rt, alloc, MeasureName::Precision(2), 2, &PRECISION)?;
    expect_pairs(&rt, alloc, MeasureName::Recall(1), S, &RECALL)?;
    expect_pairs(&rt, alloc, MeasureName::Reciprocal, S, &RECIPROCAL)?;
    expect_pairs(&rt, alloc, MeasureName::RPrecision, S, &R_PRECISION)
}

#[test]
fn no_walk_has_too_many_steps(rt: HostRuntime) -> Result<(), Fail> {
    let runs: (&[u32], &[u32]) = (&[0], &[1]);
    let many = walk(&rt, rt.alloc(), MeasureName::Reciprocal, S, runs, &[U; 17])?;
    assert!(rt; many == Err(EndsFault::TooManyUnjudged));
    Ok(())
}

/// Whether the difference in one completion has these two whole numbers next to it.
fn is_case(
    rt: &impl Abort,
    alloc: Global,
    name: MeasureName,
    unit: u64,
    runs: (&[u32], &[u32]),
    case: &[bool],
    span: Span,
) -> Result<bool, Fail>
    requires tail { LooksAtNoTail name }
    requires unit { unit ≤ 10 ^ 18 }
{
    let marks = judged(alloc, case)?;
    let found = walked(rt, alloc, name, unit, runs, &marks)?;
    Ok(found.least_lo == span.lo && found.least_hi == span.hi)
}

/// Whether the cell is that of the ends of the pair, and the bounds are those of the first run alone.
fn has_ends(answers: &Answers, pair: ExtremeEnds, alone: ExtremeEnds) -> bool {
    let cell = answers.cell;
    let bounds = answers.bounds;
    pair == ends((cell.least.lo, cell.least.hi), (cell.most.lo, cell.most.hi))
        && bounds.lo == alone.least_lo
        && bounds.hi == alone.most_hi
}

/// Whether the least and the most case are completions that reach these ends.
fn has_cases(
    rt: &impl Abort,
    alloc: Global,
    name: MeasureName,
    unit: u64,
    runs: (&[u32], &[u32]),
    answers: &Answers,
) -> Result<bool, Fail>
    requires tail { LooksAtNoTail name }
    requires unit { unit ≤ 10 ^ 18 }
{
    let cell = answers.cell;
    let least: &[bool] = &answers.least_case;
    let most: &[bool] = &answers.most_case;
    Ok(
        is_case(rt, alloc, name, unit, runs, least, cell.least)?
            && is_case(rt, alloc, name, unit, runs, most, cell.most)?,
    )
}

/// Whether a measure agrees with the walk, for a pair, for its least and its most case, and for its first run alone.
fn agrees(
    rt: &impl Abort,
    alloc: Global,
    name: MeasureName,
    unit: u64,
    runs: (&[u32], &[u32]),
    marks: &[Mark],
) -> Result<bool, Fail>
    requires tail { LooksAtNoTail name }
    requires measure { IsMeasure name }
    requires unit { unit ≤ 10 ^ 18 }
{
    let pair = walked(rt, alloc, name, unit, runs, marks)?;
    let alone = walked(rt, alloc, name, unit, (runs.0, &[]), marks)?;
    let answers = ask(rt, alloc, name, runs, marks, 0)?;
    Ok(has_ends(&answers, pair, alone) && has_cases(rt, alloc, name, unit, runs, &answers)?)
}

fn compare_all(rt: &impl Abort, alloc: Global, name: MeasureName, unit: u64) -> Result<(), Fail>
    requires tail { LooksAtNoTail name }
    requires measure { IsMeasure name }
    requires unit { unit ≤ 10 ^ 18 }
{
    for marks in &MARKS {
        for first in &RANKINGS {
            for second in &RANKINGS {
                let runs = (*first, *second);
                let agrees = agrees(rt, alloc, name, unit, runs, marks)?;
                assert!(rt; agrees, "{runs:?}");
            }
        }
    }
    Ok(())
}

#[test]
fn measures_as_every_completion_has_them(rt: HostRuntime) -> Result<(), Fail> {
    let alloc = rt.alloc();
    for k in [1, 2, 3, 40] {
        compare_all(&rt, alloc, MeasureName::Precision(k), k as u64)?;
        compare_all(&rt, alloc, MeasureName::Recall(k), S)?;
    }
    compare_all(&rt, alloc, MeasureName::Reciprocal, S)?;
    compare_all(&rt, alloc, MeasureName::RPrecision, S)
}
