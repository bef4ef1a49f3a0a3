ghost use Rattle.std.specs.Prelude.{◌≡◌, ◌≤◌, length, false, MatchOption};
ghost use Rattle.desk_model.specs.Completion.{with_picked};
ghost use Rattle.desk_model.specs.Limits.{RANK_LIMIT};
ghost use Rattle.desk_model.specs.Ranking.{IsRanking};
ghost use Rattle.desk_model.specs.Score.{first_true};
ghost use Rattle.desk_model.specs.declared.types.MeasureName.TheVariants.{Reciprocal as R};
ghost use Rattle.measure_laws.specs.Ends.{IsUpperEnd};
ghost use Rattle.measure_laws.specs.Ranks.{IsRankWithin};
ghost use Rattle.topic_ends.specs.Differences.{IsDifferenceOf};
ghost use Rattle.topic_ends.specs.Least.{AreRankings, IsLeastLow};

use crate::counts::prefix;
use crate::difference::Difference;
use crate::pair::MarkedPair;
use crate::ranks::{earlier_of, rank_in};
use crate::relevance::Relevance;
use desk_model::{Mark, Ranking};

/// The rank of a ranking's first document that is judged relevant.
fn first_judged(ranking: &Ranking, marks: &[Mark]) -> Option<u32>
    requires { IsRanking (length marks.now) ranking.now }
    ensures first { result ≡ first_true (with_picked marks.now (λ _. false)) ranking.now }
    ensures within { IsRankWithin RANK_LIMIT result }
{
    for (place, doc) in ranking.docs().iter().enumerate() {
        if marks[*doc as usize] == Mark::Relevant {
            return Some(place as u32 + 1);
        }
    }
    None
}

/// The rank of a ranking's first document that is relevant in one completion.
fn first_relevant<T: Relevance>(ranking: &Ranking, relevant: &T) -> Option<u32>
    requires { IsRanking (T.universe relevant.now) ranking.now }
    ensures first { result ≡ first_true (T.truth relevant.now) ranking.now }
    ensures within { IsRankWithin RANK_LIMIT result }
{
    for (place, doc) in ranking.docs().iter().enumerate() {
        if relevant.is_relevant(*doc) {
            return Some(place as u32 + 1);
        }
    }
    None
}

/// One over a rank less one over another, where an absent rank gives 0.
fn difference(x: Option<u32>, y: Option<u32>) -> Difference
    requires first { IsRankWithin RANK_LIMIT x }
    requires second { IsRankWithin RANK_LIMIT y }
    ensures { IsDifferenceOf x y result }
{
    match (x, y) {
        (Some(x), Some(y)) => Difference {
            first: y,
            second: x,
            whole: x * y,
        },
        (Some(x), None) => Difference {
            first: 1,
            second: 0,
            whole: x,
        },
        (None, Some(y)) => Difference {
            first: 0,
            second: 1,
            whole: y,
        },
        (None, None) => Difference {
            first: 0,
            second: 0,
            whole: 1,
        },
    }
}

/// The rank of a ranking's first document that is judged relevant, or its last rank.
fn last_chosen(first: Option<u32>, ranking: &Ranking) -> u32
    requires { length ranking.now ≤ RANK_LIMIT }
    ensures { MatchOption first (result ≡ length ranking.now) (λ rank. result ≡ rank) }
{
    match first {
        Some(rank) => rank,
        None => ranking.docs().len() as u32,
    }
}

/// The lower end of the least difference under `recip_rank`: the smallest over no choice and each
/// choice of an unjudged document of b, where a's first relevant rank is the earlier of its first
/// judged one and that of the chosen document, and so is b's. A document after b's first judged
/// relevant one does not lower the difference.
pub fn least_low(pair: &MarkedPair<'_, '_, '_>) -> i128
    ensures { IsLeastLow R pair.now.marks.now pair.now.a.now pair.now.b.now result }
{
    let a = pair.a;
    let b = pair.b;
    let marks = pair.marks;
    let first = first_judged(a, marks);
    let second = first_judged(b, marks);
    let mut low = difference(first, second).floor();
    for doc in prefix(b.docs(), last_chosen(second, b)) {
        match marks[*doc as usize] {
            Mark::Unjudged => {
                let x = earlier_of(first, rank_in(a, *doc));
                let y = earlier_of(second, rank_in(b, *doc));
                low = difference(x, y).lowered(low);
            }
            Mark::Relevant | Mark::Other => {}
        }
    }
    low
}

/// The upper end of the difference under `recip_rank` in one completion.
pub fn upper_end<T: Relevance>(a: &Ranking, b: &Ranking, relevant: &T) -> i128
    requires { AreRankings (T.universe relevant.now) a.now b.now }
    ensures { IsUpperEnd R (T.universe relevant.now) (T.truth relevant.now) a.now b.now result }
{
    difference(first_relevant(a, relevant), first_relevant(b, relevant)).ceiling()
}
