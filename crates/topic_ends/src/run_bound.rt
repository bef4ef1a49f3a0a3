//! A run's bounds under average precision: the least and the greatest number of its candidates. Only candidates whose
//! estimate may beat the best number so far are evaluated.
ghost use Rattle.std.specs.Prelude.{◌≡◌, ℕ, ◌≤◌, ◌*◌, ◌+◌, length, true};
ghost use Rattle.desk_model.specs.Limits.{PARTS_OF_ONE, RANK_LIMIT};
ghost use Rattle.measure_laws.specs.Candidates.{open_docs};
ghost use Rattle.topic_ends.specs.Candidates.{bound_of, out_of};
ghost use Rattle.topic_ends.specs.RunBounds.{AreRunBounds};
ghost use Rattle.topic_ends.specs.Estimates.{AreTotals, IsAsGood, IsBestSoFar, IsNear, IsPassing};

use crate::candidate::{MarkedRun, number};
use crate::estimate::{Estimate, Passed, Totals, estimate_at, totals_of};
use crate::part_sum::Rank;
use desk_model::Mark;

/// Whether a candidate is surely no better than a number.
fn is_beaten(high: bool, estimate: Estimate, best: u128) -> bool
    requires { best ≤ RANK_LIMIT * PARTS_OF_ONE }
    ensures { (sum : ℕ) → IsNear high sum estimate.sum estimate.slack → result ≡ true →
        IsAsGood high best (out_of high sum estimate.documents) }
{
    let documents = u128::from(estimate.documents);
    if documents == 0 {
        return false;
    }
    if high {
        estimate.sum + estimate.slack <= best * documents
    } else {
        best * documents + estimate.slack <= estimate.sum
    }
}

/// The better of the best number so far and that of the candidate that a walk has come to.
fn visited(high: bool, passed: Passed, totals: Totals, best: u128, run: &MarkedRun<'_, '_>) -> u128
    requires passing { IsPassing high run.now.marks.now run.now.docs.now totals passed }
    requires best { IsBestSoFar high run.now.marks.now run.now.docs.now passed.unjudged best }
    ensures { IsBestSoFar high run.now.marks.now run.now.docs.now (passed.unjudged + 1) result }
{
    let estimate = estimate_at(high, passed, totals, run);
    if is_beaten(high, estimate, best) {
        return best;
    }
    let next = number(high, passed.unjudged, run);
    if high { best.max(next) } else { best.min(next) }
}

/// Whether a candidate seems better than another. It decides which is evaluated first, and so only how many are.
fn seems_better(high: bool, x: Estimate, y: Estimate) -> bool {
    let here = u128::from(x.documents.max(1));
    let there = u128::from(y.documents.max(1));
    if high {
        (x.sum + x.slack) * there > (y.sum + y.slack) * here
    } else {
        x.sum.saturating_sub(x.slack) * there <= y.sum.saturating_sub(y.slack) * here
    }
}

/// A candidate to begin with, and what is known of it.
#[derive(Clone, Copy)]
pub struct Start {
    pub count: u32,
    pub estimate: Estimate,
}

/// The start so far or the candidate that a walk has come to, whichever seems better.
fn started(
    high: bool,
    passed: Passed,
    totals: Totals,
    best: Start,
    run: &MarkedRun<'_, '_>,
) -> Start
    requires passing { IsPassing high run.now.marks.now run.now.docs.now totals passed }
    requires best { best.count ≤ length (open_docs run.now.marks.now run.now.docs.now) }
    ensures { result.count ≤ length (open_docs run.now.marks.now run.now.docs.now) }
{
    let estimate = estimate_at(high, passed, totals, run);
    if seems_better(high, estimate, best.estimate) {
        Start {
            count: passed.unjudged,
            estimate,
        }
    } else {
        best
    }
}

/// A candidate that is likely the best one.
fn start_of(high: bool, totals: Totals, run: &MarkedRun<'_, '_>) -> u32
    requires { AreTotals high run.now.marks.now run.now.docs.now totals }
    ensures { result ≤ length (open_docs run.now.marks.now run.now.docs.now) }
{
    let mut best = Start {
        count: 0,
        estimate: Estimate {
            sum: if high {
                0
            } else {
                10_000_000_000_000_000_000_000
            },
            slack: 0,
            documents: 1,
        },
    };
    let mut passed = Passed::NONE;
    let mut rank = 1;
    for doc in run.docs {
        let mark = run.marks[*doc as usize];
        if mark == Mark::Unjudged {
            best = started(high, passed, totals, best, run);
        }
        passed = passed.with(high, mark, Rank { number: rank });
        rank += 1;
    }
    started(high, passed, totals, best, run).count
}

/// A run's upper or lower bound on a topic, in parts of 10^18.
pub fn bound(high: bool, run: &MarkedRun<'_, '_>) -> u128
    ensures value { result ≡ bound_of high run.now.marks.now run.now.docs.now }
    ensures small { result ≤ PARTS_OF_ONE }
{
    let totals = totals_of(high, run);
    let start = start_of(high, totals, run);
    let mut best = number(high, start, run);
    let mut passed = Passed::NONE;
    let mut rank = 1;
    for doc in run.docs {
        let mark = run.marks[*doc as usize];
        if mark == Mark::Unjudged {
            best = visited(high, passed, totals, best, run);
        }
        passed = passed.with(high, mark, Rank { number: rank });
        rank += 1;
    }
    visited(high, passed, totals, best, run)
}

/// Both bounds of a run on a topic, in parts of 10^18.
#[derive(Clone, Copy, PartialEq, Eq)]
pub struct RunBounds {
    pub low: u64,
    pub high: u64,
}

/// Both bounds of a run on a topic.
pub fn bounds_of(run: &MarkedRun<'_, '_>) -> RunBounds
    ensures { AreRunBounds run.now.marks.now run.now.docs.now result }
{
    RunBounds {
        low: bound(false, run) as u64,
        high: bound(true, run) as u64,
    }
}
