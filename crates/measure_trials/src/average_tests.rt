//! Average precision beside the plain sum of its definition, in every completion of small topics.
use crate::answers::{Answers, ask};
use crate::plain::{completes, has, is_in};
use crate::tests::{O, R, U, WHOLE};
use desk_model::{Mark, MeasureName};
use measure_core::Cell;
use std::alloc::Global;
use std::process::Abort;
use std::test::Fail;
use topic_counts::Span;

/// How many parts make a score of 1: each precision at a rank up to 6 out of up to 6 documents is a whole number of them.
const PARTS: i128 = 3600;

/// What a document adds to the precision at each rank, in parts of 1/60.
const STEPS: [u64; 6] = [60, 30, 20, 15, 12, 10];

const RANKINGS: [&[u32]; 8] = [
    &[],
    &[0],
    &[3, 1],
    &[0, 1, 2, 3, 4, 5],
    &[5, 4, 3, 2, 1, 0],
    &[2, 3, 0, 5],
    &[1, 0, 4, 2],
    &[4, 2, 1, 3, 0],
];

const MARKS: [[Mark; 6]; 4] = [
    [U, U, U, U, U, U],
    [R, U, O, U, U, R],
    [U, O, R, U, U, O],
    [O, U, R, R, O, O],
];

/// The average precision of a ranking where these documents are relevant, in parts of 1/3600.
fn score(relevant: u32, docs: &[u32]) -> i128 {
    let mut found: u64 = 0;
    let mut sum: u64 = 0;
    for (doc, step) in docs.iter().zip(&STEPS) {
        if has(relevant, *doc) {
            found = found.wrapping_add(1);
            sum = sum.wrapping_add(found.wrapping_mul(*step));
        }
    }
    let all = u64::from(relevant.count_ones());
    i128::from(sum.wrapping_mul(60).checked_div(all).unwrap_or(0))
}

/// How much greater the first run's score is than the second one's.
fn difference(relevant: u32, runs: (&[u32], &[u32])) -> i128 {
    score(relevant, runs.0).wrapping_sub(score(relevant, runs.1))
}

/// Whether a number of parts lies within a span of so many 10^18ths.
fn is_within(span: Span, number: i128) -> bool {
    is_in(
        span.lo.wrapping_mul(PARTS),
        number.wrapping_mul(WHOLE),
        span.hi.wrapping_mul(PARTS),
    )
}

/// The least and the greatest of some numbers.
#[derive(Clone, Copy)]
struct Ends {
    least: i128,
    greatest: i128,
}

impl Ends {
    const NONE: Ends = Ends {
        least: i128::MAX,
        greatest: i128::MIN,
    };

    fn with(self, number: i128) -> Ends {
        Ends {
            least: self.least.min(number),
            greatest: self.greatest.max(number),
        }
    }
}

/// The ends of the first run's score over all completions, and those of the difference.
fn walked(runs: (&[u32], &[u32]), marks: &[Mark]) -> (Ends, Ends) {
    let mut scores = Ends::NONE;
    let mut differences = Ends::NONE;
    for relevant in 0..64 {
        if completes(relevant, marks) {
            scores = scores.with(score(relevant, runs.0));
            differences = differences.with(difference(relevant, runs));
        }
    }
    (scores, differences)
}

/// Whether bounds hold the ends of a score, and each lies at most 2 units from its end.
fn are_bounds(bounds: Span, scores: Ends) -> bool {
    let low = Span {
        lo: bounds.lo,
        hi: bounds.lo.wrapping_add(2),
    };
    let high = Span {
        lo: bounds.hi.wrapping_sub(2),
        hi: bounds.hi,
    };
    is_within(low, scores.least) && is_within(high, scores.greatest)
}

/// Whether a cell holds the ends of a difference.
fn holds(cell: Cell, differences: Ends) -> bool {
    let span = Span {
        lo: cell.least.lo,
        hi: cell.most.hi,
    };
    is_within(span, differences.least) && is_within(span, differences.greatest)
}

/// The documents that are relevant in a case, by bits.
fn set_of(case: &[bool]) -> u32 {
    let mut set: u32 = 0;
    let mut bit: u32 = 1;
    for value in case {
        if *value {
            set |= bit;
        }
        bit = bit.wrapping_mul(2);
    }
    set
}

/// Whether a case is a completion whose difference lies within a span.
fn is_case(case: &[bool], marks: &[Mark], runs: (&[u32], &[u32]), span: Span) -> bool {
    let relevant = set_of(case);
    completes(relevant, marks) && is_within(span, difference(relevant, runs))
}

fn agrees(answers: &Answers, runs: (&[u32], &[u32]), marks: &[Mark]) -> bool {
    let (scores, differences) = walked(runs, marks);
    are_bounds(answers.bounds, scores)
        && holds(answers.cell, differences)
        && is_case(&answers.least_case, marks, runs, answers.cell.least)
        && is_case(&answers.most_case, marks, runs, answers.cell.most)
}

fn compare_all(rt: &impl Abort, alloc: Global, marks: &[Mark]) -> Result<(), Fail> {
    for first in &RANKINGS {
        for second in &RANKINGS {
            let runs = (*first, *second);
            let answers = ask(rt, alloc, MeasureName::AveragePrecision, runs, marks, 0)?;
            assert!(rt; agrees(&answers, runs, marks), "{runs:?}");
        }
    }
    Ok(())
}

#[test]
fn average_holds_every_completion(rt: HostRuntime) -> Result<(), Fail> {
    for marks in &MARKS {
        compare_all(&rt, rt.alloc(), marks)?;
    }
    Ok(())
}

#[test]
fn plain_averages_by_hand(rt: HostRuntime) {
    let both = score(0b01_0010, &[4, 0, 1]);
    let first_of_two = score(0b00_0011, &[5, 0]);
    assert!(rt; both == 3000 && first_of_two == 900 && score(0, &[0]) == 0);
}
