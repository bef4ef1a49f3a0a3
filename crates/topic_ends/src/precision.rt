ghost use Rattle.std.specs.Prelude.{◌≡◌};
ghost use Rattle.desk_model.specs.MeasureText.{IsDepth};
ghost use Rattle.desk_model.specs.declared.types.MeasureName.TheVariants.{Precision as P};
ghost use Rattle.measure_laws.specs.Ends.{IsUpperEnd};
ghost use Rattle.topic_ends.specs.Least.{AreRankings, IsLeastLow};

use crate::counts::relevant_among;
use crate::own::Own;
use crate::pair::MarkedPair;
use crate::relevance::Relevance;
use desk_model::Ranking;

/// k times the least difference under `P_k`: a's own relevant documents among the first k, less b's
/// own ones that are relevant or unjudged.
pub fn least_low(k: u32, pair: &MarkedPair<'_, '_, '_>) -> i128
    requires { IsDepth k }
    ensures { IsLeastLow (P k) pair.now.marks.now pair.now.a.now pair.now.b.now result }
{
    let own = Own::of_first(k, pair);
    i128::from(own.first.relevant) - i128::from(own.second.possible)
}

/// k times the difference under `P_k` in one completion.
pub fn upper_end<T: Relevance>(k: u32, a: &Ranking, b: &Ranking, relevant: &T) -> i128
    requires depth { IsDepth k }
    requires rankings { AreRankings (T.universe relevant.now) a.now b.now }
    ensures { IsUpperEnd (P k) (T.universe relevant.now) (T.truth relevant.now) a.now b.now result }
{
    let first = relevant_among(k, a, relevant);
    let second = relevant_among(k, b, relevant);
    i128::from(first) - i128::from(second)
}
