ghost use Rattle.std.specs.Prelude.{◌≡◌, ◌+◌, ◌-◌, ◌≤◌, ◌<◌, ◌&&◌, not, min, max, true, false, pos, ◌-ℤ◌, length, take, if◌then◌else◌};
ghost use Rattle.desk_model.specs.Completion.{picked_value};
ghost use Rattle.desk_model.specs.Limits.{DOCUMENT_LIMIT, RANK_LIMIT};
ghost use Rattle.desk_model.specs.Ranking.{IsRanking};
ghost use Rattle.desk_model.specs.declared.types.MeasureName.TheVariants.{RPrecision as R};
ghost use Rattle.measure_laws.specs.Ends.{IsUpperEnd};
ghost use Rattle.topic_ends.specs.Counted.{AreAllCounts};
ghost use Rattle.topic_ends.specs.Differences.{IsSmallDifference, lead_of, whole_of};
ghost use Rattle.topic_ends.specs.Least.{AreRankings, IsLeastLow};
ghost use Rattle.topic_ends.specs.Own.{CountsOwn, IsOrdered};

use crate::counts::{RelevantCounts, relevant_among};
use crate::difference::Difference;
use crate::own::Own;
use crate::pair::MarkedPair;
use crate::ranks::longer;
use crate::relevance::Relevance;
use desk_model::Ranking;

/// The difference where so many unjudged documents are relevant: b's own ones are chosen first, and
/// a's own ones last.
fn difference(own: Own, all: RelevantCounts, chosen: u32) -> Difference
    requires own { IsOrdered own }
    requires all { all.relevant ≤ all.possible }
    requires few { all.possible ≤ DOCUMENT_LIMIT }
    requires chosen { all.relevant + chosen ≤ all.possible }
    ensures small { IsSmallDifference result }
    ensures lead { lead_of result ≡
        pos (own.first.relevant +
        (chosen - (all.possible - all.relevant - (own.first.possible - own.first.relevant)))) -ℤ pos
        (own.second.relevant + min chosen (own.second.possible - own.second.relevant)) }
    ensures whole { whole_of result ≡ max 1 (all.relevant + chosen) }
{
    let others = all.unjudged().saturating_sub(own.first.unjudged());
    Difference {
        first: own.first.relevant + chosen.saturating_sub(others),
        second: own.second.relevant + chosen.min(own.second.unjudged()),
        whole: all.relevant + chosen,
    }
}

/// How many unjudged documents to make relevant one by one: up to as many relevant documents as the
/// longer ranking has, and at least one, where the topic can have so many.
fn steps_to_longer(all: RelevantCounts, a: &Ranking, b: &Ranking) -> u32
    requires { all.relevant ≤ all.possible }
    ensures { result ≡ min (max 1 (max (length a.now) (length b.now)) - all.relevant)
        (all.possible - all.relevant) }
{
    let longest = longer(a, b).max(1);
    all.unjudged().min(longest.saturating_sub(all.relevant))
}

/// The lower end of the least difference under R-precision: the smallest over each number of relevant
/// documents that the topic can have, from the judged ones to those and all unjudged ones. Beyond both
/// rankings two of them are enough: where b's own unjudged documents are used up, and where only a's
/// own are left.
pub fn least_low(pair: &MarkedPair<'_, '_, '_>, all: RelevantCounts) -> i128
    requires { AreAllCounts pair.now.marks.now all }
    ensures { IsLeastLow R pair.now.marks.now pair.now.a.now pair.now.b.now result }
{
    let steps = steps_to_longer(all, pair.a, pair.b);
    let mut own = Own::of_first(all.relevant, pair);
    let mut low = difference(own, all, 0).floor();
    for chosen in 0..steps {
        own = own.deepened(all.relevant + chosen, pair);
        low = difference(own, all, chosen + 1).lowered(low);
    }
    let second_used = steps.max(own.second.unjudged());
    let others_used = steps.max(all.unjudged().saturating_sub(own.first.unjudged()));
    let low = difference(own, all, second_used).lowered(low);
    difference(own, all, others_used).lowered(low)
}

/// The upper end of the difference under R-precision in one completion.
pub fn upper_end<T: Relevance>(a: &Ranking, b: &Ranking, relevant: &T) -> i128
    requires { AreRankings (T.universe relevant.now) a.now b.now }
    ensures { IsUpperEnd R (T.universe relevant.now) (T.truth relevant.now) a.now b.now result }
{
    let depth = relevant.relevant_count();
    Difference {
        first: relevant_among(depth, a, relevant),
        second: relevant_among(depth, b, relevant),
        whole: depth,
    }
    .ceiling()
}
