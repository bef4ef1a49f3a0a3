//! Rank-biased precision against the plain sum of its definition, in every completion of small topics
//! with some short tails.
ghost use Rattle.desk_model.specs.MeasureText.{IsMeasure};

use crate::answers::ask;
use crate::plain::{completes, difference, has, is_in};
use crate::tests::{MARKS, O, R, RANKINGS, U};
use desk_model::{Mark, MeasureName};
use measure_core::Cell;
use std::alloc::Global;
use std::process::Abort;
use std::test::Fail;
use topic_counts::Span;

const HALF: MeasureName = MeasureName::Biased { top: 5, bottom: 10 };

const MOST: MeasureName = MeasureName::Biased { top: 8, bottom: 10 };

const TAILS: [&[bool]; 5] = [
    &[],
    &[true],
    &[false, true],
    &[true, false, true],
    &[true, true, true],
];

const HUNDREDTH: i128 = 10_000_000_000_000_000;

/// The score of the places so far, and what the next one adds where it is relevant, in parts of 10^-7.
#[derive(Clone, Copy)]
struct Sum {
    persistence: u64,
    next: u64,
    total: u64,
}

impl Sum {
    /// No places, under a persistence in tenths.
    fn new(persistence: u64) -> Sum {
        Sum {
            persistence,
            next: 10_u64.wrapping_sub(persistence).wrapping_mul(1_000_000),
            total: 0,
        }
    }

    fn with(self, relevant: bool) -> Sum {
        let gain = if relevant { self.next } else { 0 };
        Sum {
            persistence: self.persistence,
            next: self.next.wrapping_mul(self.persistence) / 10,
            total: self.total.wrapping_add(gain),
        }
    }
}

fn ranked(persistence: u64, relevant: u32, docs: &[u32]) -> Sum {
    let mut sum = Sum::new(persistence);
    for doc in docs {
        sum = sum.with(has(relevant, *doc));
    }
    sum
}

/// The score of a ranking with its tail, in parts of 10^-7.
fn score(persistence: u64, relevant: u32, docs: &[u32], tail: &[bool]) -> u64 {
    let mut sum = ranked(persistence, relevant, docs);
    for place in tail {
        sum = sum.with(*place);
    }
    sum.total
}

/// Whether the difference is in the cell, under each pair of tails.
fn holds(cell: Cell, persistence: u64, relevant: u32, runs: (&[u32], &[u32])) -> bool {
    for first in &TAILS {
        for second in &TAILS {
            let number = difference(
                score(persistence, relevant, runs.0, *first),
                score(persistence, relevant, runs.1, *second),
            );
            if !is_in(cell.least.lo, number, cell.most.hi) {
                return false;
            }
        }
    }
    true
}

/// Whether the score is within the bounds, under each tail.
fn is_bounded(bounds: Span, persistence: u64, relevant: u32, docs: &[u32]) -> bool {
    for tail in &TAILS {
        let number = difference(score(persistence, relevant, docs, *tail), 0);
        if !is_in(bounds.lo, number, bounds.hi) {
            return false;
        }
    }
    true
}

/// Whether the cell and the bounds hold every completion, of which there is one at least.
fn hold_all(
    cell: Cell,
    bounds: Span,
    persistence: u64,
    runs: (&[u32], &[u32]),
    marks: &[Mark],
) -> bool {
    let mut completions: u32 = 0;
    for relevant in 0..16 {
        if completes(relevant, marks) {
            if !holds(cell, persistence, relevant, runs)
                || !is_bounded(bounds, persistence, relevant, runs.0)
            {
                return false;
            }
            completions = completions.wrapping_add(1);
        }
    }
    completions > 0
}

fn compare(
    rt: &impl Abort,
    alloc: Global,
    name: MeasureName,
    persistence: u64,
    runs: (&[u32], &[u32]),
    marks: &[Mark],
) -> Result<(), Fail>
    requires { IsMeasure name }
{
    let answers = ask(rt, alloc, name, runs, marks, 0)?;
    let hold = hold_all(answers.cell, answers.bounds, persistence, runs, marks);
    assert!(rt; hold, "{runs:?}");
    Ok(())
}

fn compare_all(
    rt: &impl Abort,
    alloc: Global,
    name: MeasureName,
    persistence: u64,
) -> Result<(), Fail>
    requires { IsMeasure name }
{
    for marks in &MARKS {
        for first in &RANKINGS {
            for second in &RANKINGS {
                compare(rt, alloc, name, persistence, (*first, *second), marks)?;
            }
        }
    }
    Ok(())
}

#[test]
fn biased_holds_every_completion_with_short_tails(rt: HostRuntime) -> Result<(), Fail> {
    compare_all(&rt, rt.alloc(), HALF, 5)?;
    compare_all(&rt, rt.alloc(), MOST, 8)
}

#[test]
fn plain_sums_by_hand(rt: HostRuntime) {
    let alone = score(5, 0b0001, &[0, 1], &[]);
    let followed = score(5, 0b0010, &[0, 1], &[true]);
    let later = score(8, 0b0011, &[1, 0], &[false, true]);
    assert!(rt; alone == 5_000_000 && followed == 3_750_000 && later == 3_600_000 + 1_024_000);
    assert!(rt; difference(5_000_000, 6_000_000) == -10 * HUNDREDTH);
}

/// From one number to the next, as the long tail leaves it, given in hundredths.
fn open(least: i128, most: i128) -> Cell {
    let least = least.wrapping_mul(HUNDREDTH);
    let most = most.wrapping_mul(HUNDREDTH);
    Cell {
        least: Span {
            lo: least,
            hi: least.wrapping_add(1),
        },
        most: Span {
            lo: most.wrapping_sub(1),
            hi: most,
        },
    }
}

fn expect_cell(
    rt: &impl Abort,
    alloc: Global,
    name: MeasureName,
    runs: (&[u32], &[u32]),
    marks: &[Mark],
    cell: Cell,
) -> Result<(), Fail>
    requires { IsMeasure name }
{
    let answers = ask(rt, alloc, name, runs, marks, 0)?;
    assert!(rt; answers.cell == cell, "{runs:?}");
    Ok(())
}

#[test]
fn biased_by_hand(rt: HostRuntime) -> Result<(), Fail> {
    let alloc = rt.alloc();
    let alone = open(-50, 100);
    expect_cell(&rt, alloc, HALF, (&[0], &[]), &[R], alone)?;
    let same = open(-50, 50);
    expect_cell(&rt, alloc, HALF, (&[0], &[0]), &[U], same)?;
    let later = open(-64, 84);
    expect_cell(&rt, alloc, MOST, (&[0, 1], &[1]), &[R, U], later)?;
    let other = open(-100, 60);
    expect_cell(&rt, alloc, MOST, (&[1], &[0]), &[R, O], other)
}
