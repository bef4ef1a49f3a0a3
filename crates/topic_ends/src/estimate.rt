//! A walk along a ranking that estimates the sum of each candidate, without a pass for each.
ghost use Rattle.std.specs.Prelude.{◌≡◌, ◌+◌, ◌*◌, ◌≤◌};
ghost use Rattle.desk_model.specs.Limits.{DOCUMENT_LIMIT, PARTS_OF_ONE, RANK_LIMIT};
ghost use Rattle.desk_model.specs.Precisions.{true_ranks};
ghost use Rattle.topic_ends.specs.Candidates.{along, documents_of, gains_by};
ghost use Rattle.topic_ends.specs.Estimates.{AreTotals, IsPassing, estimate_of, inverse_if, inverse_sum, slack_of, walked};
ghost use Rattle.topic_ends.specs.PartSums.{IsBefore};

use crate::candidate::{MarkedRun, documents_in, gains, sum_of};
use crate::part_sum::{PartSum, Rank, part_of};
use desk_model::Mark;

/// What is known of the documents that a walk has passed.
#[derive(Clone, Copy, PartialEq, Eq)]
pub struct Passed {
    /// How many of them are unjudged.
    pub unjudged: u32,
    /// Their sum where the unjudged ones are as those that come first.
    pub near: PartSum,
    /// Their sum where the unjudged ones are as those that come last.
    pub far: PartSum,
    /// The sum of one over the rank of each that is relevant in the second, in parts, each rounded up.
    pub inverses: u128,
}

/// The second and the third sum of a whole ranking.
#[derive(Clone, Copy, PartialEq, Eq)]
pub struct Totals {
    pub far: u128,
    pub inverses: u128,
}

/// What a candidate's sum is near: beyond the estimate by so many parts at most, above it on the high side and below it
/// on the low one. Its facts: no number is too great.
#[derive(Clone, Copy)]
pub struct Estimate {
    pub sum: u128,
    pub slack: u128,
    /// How many documents are relevant in the candidate.
    pub documents: u32,
    pub ghost sum_small: { sum ≤ 2 * (RANK_LIMIT * PARTS_OF_ONE) },
    pub ghost slack_small: { slack ≤ RANK_LIMIT * (RANK_LIMIT * PARTS_OF_ONE) },
    pub ghost few: { documents ≤ DOCUMENT_LIMIT },
}

/// One over a rank, in parts, rounded up, where its document is relevant.
fn inverse_at(gain: bool, rank: Rank) -> u64
    ensures value { result ≡ inverse_if gain rank.number }
    ensures small { result ≤ PARTS_OF_ONE }
{
    if gain { part_of(true, 1, rank) } else { 0 }
}

impl Passed {
    /// Before the first document.
    pub const NONE: Passed = Passed {
        unjudged: 0,
        near: PartSum::NONE,
        far: PartSum::NONE,
        inverses: 0,
    };

    /// With the document at the next rank.
    pub fn with(self, high: bool, mark: Mark, rank: Rank) -> Passed
        requires unjudged { self.unjudged ≤ RANK_LIMIT }
        requires near { IsBefore rank.number self.near }
        requires far { IsBefore rank.number self.far }
        requires inverses { self.inverses ≤ RANK_LIMIT * PARTS_OF_ONE }
        ensures value { result ≡ walked high self mark rank.number }
        ensures near { IsBefore (rank.number + 1) result.near }
        ensures far { IsBefore (rank.number + 1) result.far }
        ensures inverses { result.inverses ≤ self.inverses + PARTS_OF_ONE }
    {
        let later = gains(high, 0, mark);
        Passed {
            unjudged: self.unjudged + u32::from(mark == Mark::Unjudged),
            near: self.near.with(high, gains(high, 1, mark), rank),
            far: self.far.with(high, later, rank),
            inverses: self.inverses + u128::from(inverse_at(later, rank)),
        }
    }
}

/// The sum of one over each rank that is relevant where the unjudged documents are as those that come last.
fn inverses_of(high: bool, run: &MarkedRun<'_, '_>) -> u128
    ensures value { result ≡
        inverse_sum (true_ranks 1 (gains_by high (along run.now.marks.now run.now.docs.now) 0)) }
    ensures small { result ≤ RANK_LIMIT * PARTS_OF_ONE }
{
    let mut sum = 0;
    let mut rank = 1;
    for doc in run.docs {
        let gain = gains(high, 0, run.marks[*doc as usize]);
        sum += u128::from(inverse_at(gain, Rank { number: rank }));
        rank += 1;
    }
    sum
}

/// The totals of a whole ranking.
pub fn totals_of(high: bool, run: &MarkedRun<'_, '_>) -> Totals
    ensures { AreTotals high run.now.marks.now run.now.docs.now result }
{
    Totals {
        far: sum_of(high, 0, run),
        inverses: inverses_of(high, run),
    }
}

/// What is known of the candidate whose first unjudged documents are those that a walk has passed.
pub fn estimate_at(high: bool, passed: Passed, totals: Totals, run: &MarkedRun<'_, '_>) -> Estimate
    requires { IsPassing high run.now.marks.now run.now.docs.now totals passed }
    ensures sum { result.sum ≡ estimate_of passed totals }
    ensures slack { result.slack ≡ slack_of passed totals }
    ensures documents { result.documents ≡ documents_of high run.now.all passed.unjudged }
{
    Estimate {
        sum: passed.near.parts + (totals.far - passed.far.parts),
        slack: u128::from(passed.unjudged) * (totals.inverses - passed.inverses),
        documents: documents_in(high, passed.unjudged, run),
    }
}
