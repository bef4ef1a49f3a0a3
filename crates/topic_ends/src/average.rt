//! The ends of two rankings under average precision.
ghost use Rattle.std.specs.Prelude.{◌≡◌, ◌*◌, ◌≤◌, length, map};
ghost use Rattle.desk_model.specs.Limits.{DOCUMENT_LIMIT, PARTS_OF_ONE, RANK_LIMIT};
ghost use Rattle.desk_model.specs.Precisions.{true_ranks};
ghost use Rattle.desk_model.specs.Ranking.{IsRanking};
ghost use Rattle.desk_model.specs.declared.types.MeasureName.TheVariants.{AveragePrecision as A};
ghost use Rattle.measure_laws.specs.AverageEnds.{is_same_list};
ghost use Rattle.measure_laws.specs.Candidates.{average_bound_lo, average_bound_hi};
ghost use Rattle.measure_laws.specs.Ends.{IsUpperEnd};
ghost use Rattle.measure_laws.specs.Parts.{ranked_sum};
ghost use Rattle.topic_ends.specs.Candidates.{rounded};
ghost use Rattle.topic_ends.specs.Counted.{AreAllCounts};
ghost use Rattle.topic_ends.specs.Least.{AreRankings, IsLeastLow};
ghost use Rattle.topic_ends.specs.PartSums.{worth_of};
ghost use Rattle.topic_ends.specs.RunBounds.{AreKnown};

use crate::candidate::{MarkedRun, quotient};
use crate::counts::RelevantCounts;
use crate::part_sum::{PartSum, Rank};
use crate::ranked::Ranked;
use crate::relevance::Relevance;
use crate::run_bound::{RunBounds, bound};
use desk_model::{Mark, Ranking};

/// Whether two rankings are one list of documents.
fn are_same(a: &[u32], b: &[u32]) -> bool
    ensures { result ≡ is_same_list a.now b.now }
{
    a == b
}

/// The sum of the precisions at a ranking's relevant documents in one completion, rounded up or down.
fn sum_in<T: Relevance>(high: bool, docs: &[u32], relevant: &T) -> u128
    requires { IsRanking (T.universe relevant.now) docs.now }
    ensures value { result ≡ ranked_sum (worth_of high) 1
        (true_ranks 1 (map (T.truth relevant.now) docs.now)) }
    ensures small { result ≤ RANK_LIMIT * PARTS_OF_ONE }
{
    let mut sum = PartSum::NONE;
    let mut rank = 1;
    for doc in docs {
        sum = sum.with(high, relevant.is_relevant(*doc), Rank { number: rank });
        rank += 1;
    }
    sum.parts
}

/// Average precision in one completion, in parts of 10^18, rounded up or down.
fn average_in<T: Relevance>(high: bool, docs: &[u32], relevant: &T) -> u128
    requires ranking { IsRanking (T.universe relevant.now) docs.now }
    requires few { T.universe relevant.now ≤ DOCUMENT_LIMIT }
    ensures value { result ≡ rounded high (T.universe relevant.now) (T.truth relevant.now)
        docs.now }
    ensures small { result ≤ RANK_LIMIT * PARTS_OF_ONE }
{
    let sum = sum_in(high, docs, relevant);
    quotient(high, sum, relevant.relevant_count())
}

/// A run's lower bound, which may be known.
fn low_bound(known: Option<RunBounds>, run: &MarkedRun<'_, '_>) -> u128
    requires { AreKnown run.now.marks.now run.now.docs.now known }
    ensures value { result ≡ average_bound_lo run.now.marks.now run.now.docs.now }
    ensures small { result ≤ PARTS_OF_ONE }
{
    match known {
        Some(bounds) => u128::from(bounds.low),
        None => bound(false, run),
    }
}

/// A run's upper bound, which may be known.
fn high_bound(known: Option<RunBounds>, run: &MarkedRun<'_, '_>) -> u128
    requires { AreKnown run.now.marks.now run.now.docs.now known }
    ensures value { result ≡ average_bound_hi run.now.marks.now run.now.docs.now }
    ensures small { result ≤ PARTS_OF_ONE }
{
    match known {
        Some(bounds) => u128::from(bounds.high),
        None => bound(true, run),
    }
}

/// The lower end of the least difference under average precision: a's lower bound less b's upper one, and 0 where both
/// rankings are one list of documents.
pub fn least_low(a: &Ranked<'_>, b: &Ranked<'_>, marks: &[Mark], all: RelevantCounts) -> i128
    requires rankings { AreRankings (length marks.now) a.now.ranking.now b.now.ranking.now }
    requires all { AreAllCounts marks.now all }
    requires a { AreKnown marks.now a.now.ranking.now a.now.bounds }
    requires b { AreKnown marks.now b.now.ranking.now b.now.bounds }
    ensures { IsLeastLow A marks.now a.now.ranking.now b.now.ranking.now result }
{
    if are_same(a.ranking.docs(), b.ranking.docs()) {
        return 0;
    }
    let first = MarkedRun {
        docs: a.ranking.docs(),
        marks,
        all,
    };
    let second = MarkedRun {
        docs: b.ranking.docs(),
        marks,
        all,
    };
    let low = low_bound(a.bounds, &first);
    let high = high_bound(b.bounds, &second);
    low as i128 - high as i128
}

/// The upper end of the difference under average precision in one completion: a's average rounded up less b's rounded
/// down, and 0 where both rankings are one list of documents.
pub fn upper_end<T: Relevance>(a: &Ranking, b: &Ranking, relevant: &T) -> i128
    requires { AreRankings (T.universe relevant.now) a.now b.now }
    ensures { IsUpperEnd A (T.universe relevant.now) (T.truth relevant.now) a.now b.now result }
{
    if are_same(a.docs(), b.docs()) {
        return 0;
    }
    let high = average_in(true, a.docs(), relevant);
    let low = average_in(false, b.docs(), relevant);
    high as i128 - low as i128
}
