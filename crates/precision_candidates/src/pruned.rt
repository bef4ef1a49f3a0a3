//! The chosen candidate of a run, where only those are evaluated that may be it.
ghost use Rattle.std.specs.Prelude.{◌≡◌, ℕ, ◌+◌, ◌*◌, ◌≤◌, length, true};
ghost use Rattle.desk_model.specs.Limits.{DOCUMENT_LIMIT, PARTS_OF_ONE, RANK_LIMIT};
ghost use Rattle.measure_laws.specs.Candidates.{open_docs};
ghost use Rattle.precision_candidates.specs.Side.{IsChosen, documents_of, out_of};
ghost use Rattle.precision_candidates.specs.Walk.{AreTotals, IsBestSoFar, IsNear, IsPassing, Loses, estimate_of, slack_of};

use crate::candidate::{Side, SideCandidate};
use crate::choice::Choice;
use crate::table::Rank;
use crate::walk::{Totals, Walk, totals_of};
use desk_model::Mark;

/// A candidate whose sum is no more than so many parts beyond an estimate. Its facts: neither number is too great, and
/// the documents are those of a topic.
#[derive(Clone, Copy)]
pub struct Estimate {
    pub sum: u128,
    pub slack: u128,
    /// How many documents are true in it.
    pub documents: u32,
    pub ghost sum_small: { sum ≤ 2 * (RANK_LIMIT * PARTS_OF_ONE) },
    pub ghost slack_small: { slack ≤ RANK_LIMIT * (RANK_LIMIT * PARTS_OF_ONE) },
    pub ghost few: { documents ≤ DOCUMENT_LIMIT },
}

/// What is known of the candidate that a walk has come to.
fn estimate_at(side: &Side<'_>, walk: Walk, totals: Totals) -> Estimate
    requires { IsPassing side.now.high side.now.marks.now side.now.docs.now totals walk }
    ensures sum { result.sum ≡ estimate_of walk totals }
    ensures slack { result.slack ≡ slack_of walk totals }
    ensures documents { result.documents ≡ documents_of side.now.high side.now.all walk.passed }
{
    let candidate = SideCandidate {
        side,
        count: walk.passed,
    };
    Estimate {
        sum: walk.near.parts + (totals.far - walk.far.parts),
        slack: u128::from(walk.passed) * (totals.inverses - walk.inverses),
        documents: candidate.documents(),
    }
}

/// Whether a candidate is surely not chosen before another one.
fn is_beaten(high: bool, estimate: Estimate, count: u32, best: Choice) -> bool
    ensures { (sum : ℕ) → IsNear high sum estimate.sum estimate.slack → result ≡ true →
        Loses high (out_of high sum estimate.documents) count best }
{
    let documents = u128::from(estimate.documents);
    if documents == 0 {
        return false;
    }
    if high {
        let strict = u128::from(count < best.count);
        estimate.sum + estimate.slack + strict * documents <= best.value * documents
    } else {
        let strict = u128::from(best.count < count);
        (best.value + strict) * documents + estimate.slack <= estimate.sum
    }
}

/// The best candidate so far or the one that the walk has come to, whichever is chosen before the other.
fn visited(side: &Side<'_>, walk: Walk, totals: Totals, best: Choice) -> Choice
    requires passing { IsPassing side.now.high side.now.marks.now side.now.docs.now totals walk }
    requires best { IsBestSoFar side.now.high side.now.marks.now side.now.docs.now walk.passed
        best }
    ensures { IsBestSoFar side.now.high side.now.marks.now side.now.docs.now (walk.passed + 1)
        result }
{
    let estimate = estimate_at(side, walk, totals);
    if is_beaten(side.high, estimate, walk.passed, best) {
        return best;
    }
    let candidate = SideCandidate {
        side,
        count: walk.passed,
    };
    let next = candidate.choice();
    if Choice::is_chosen(side.high, next, best) {
        next
    } else {
        best
    }
}

/// Whether a candidate seems to come before another.
fn seems_better(high: bool, x: Estimate, y: Estimate) -> bool {
    let here = u128::from(x.documents.max(1));
    let there = u128::from(y.documents.max(1));
    if high {
        (x.sum + x.slack) * there > (y.sum + y.slack) * here
    } else {
        x.sum.saturating_sub(x.slack) * there <= y.sum.saturating_sub(y.slack) * here
    }
}

/// A candidate to begin with.
#[derive(Clone, Copy)]
pub struct Guess {
    pub count: u32,
    pub estimate: Estimate,
}

/// The guess so far or the candidate that the walk has come to, whichever seems better.
fn guessed(side: &Side<'_>, walk: Walk, totals: Totals, best: Guess) -> Guess
    requires passing { IsPassing side.now.high side.now.marks.now side.now.docs.now totals walk }
    requires best { best.count ≤ length (open_docs side.now.marks.now side.now.docs.now) }
    ensures { result.count ≤ length (open_docs side.now.marks.now side.now.docs.now) }
{
    let estimate = estimate_at(side, walk, totals);
    if seems_better(side.high, estimate, best.estimate) {
        Guess {
            count: walk.passed,
            estimate,
        }
    } else {
        best
    }
}

/// A candidate that is likely the chosen one.
fn first_guess(side: &Side<'_>, totals: Totals) -> u32
    requires { AreTotals side.now.high side.now.marks.now side.now.docs.now totals }
    ensures { result ≤ length (open_docs side.now.marks.now side.now.docs.now) }
{
    let mut best = Guess {
        count: 0,
        estimate: Estimate {
            sum: if side.high {
                0
            } else {
                10_000_000_000_000_000_000_000
            },
            slack: 0,
            documents: 1,
        },
    };
    let mut walk = Walk::START;
    let mut rank = 1;
    for doc in side.docs {
        let mark = side.marks[*doc as usize];
        if mark == Mark::Unjudged {
            best = guessed(side, walk, totals, best);
        }
        walk = walk.with(side, mark, Rank { number: rank });
        rank += 1;
    }
    guessed(side, walk, totals, best).count
}

/// A run's bound, with the candidate that has it.
pub fn pruned(side: &Side<'_>) -> Choice
    ensures { IsChosen side.now.high side.now.marks.now side.now.docs.now result }
{
    let totals = totals_of(side);
    let first = SideCandidate {
        side,
        count: first_guess(side, totals),
    };
    let mut best = first.choice();
    let mut walk = Walk::START;
    let mut rank = 1;
    for doc in side.docs {
        let mark = side.marks[*doc as usize];
        if mark == Mark::Unjudged {
            best = visited(side, walk, totals, best);
        }
        walk = walk.with(side, mark, Rank { number: rank });
        rank += 1;
    }
    visited(side, walk, totals, best)
}
