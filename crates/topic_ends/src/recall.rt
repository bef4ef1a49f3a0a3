ghost use Rattle.std.specs.Prelude.{◌≡◌};
ghost use Rattle.desk_model.specs.declared.types.MeasureName.TheVariants.{Recall as R};
ghost use Rattle.measure_laws.specs.Ends.{IsUpperEnd};
ghost use Rattle.topic_ends.specs.Counted.{AreAllCounts};
ghost use Rattle.topic_ends.specs.Least.{AreRankings, IsLeastLow};

use crate::counts::{RelevantCounts, relevant_among};
use crate::difference::Difference;
use crate::own::Own;
use crate::pair::MarkedPair;
use crate::relevance::Relevance;
use desk_model::Ranking;

/// The lower end of the least difference under `recall_k`: a's own relevant documents among the first
/// k, less b's own ones that are relevant or unjudged, out of the relevant ones of the least case.
/// Where a leads these are all that can be but a's own unjudged ones, else the judged ones and b's own
/// unjudged ones.
pub fn least_low(k: u32, pair: &MarkedPair<'_, '_, '_>, all: RelevantCounts) -> i128
    requires { AreAllCounts pair.now.marks.now all }
    ensures { IsLeastLow (R k) pair.now.marks.now pair.now.a.now pair.now.b.now result }
{
    let own = Own::of_first(k, pair);
    let first = own.first;
    let second = own.second;
    let whole = if second.possible < first.relevant {
        all.possible - first.unjudged()
    } else {
        all.relevant + second.unjudged()
    };
    Difference {
        first: first.relevant,
        second: second.possible,
        whole,
    }
    .floor()
}

/// The upper end of the difference under `recall_k` in one completion.
pub fn upper_end<T: Relevance>(k: u32, a: &Ranking, b: &Ranking, relevant: &T) -> i128
    requires { AreRankings (T.universe relevant.now) a.now b.now }
    ensures { IsUpperEnd (R k) (T.universe relevant.now) (T.truth relevant.now) a.now b.now result }
{
    Difference {
        first: relevant_among(k, a, relevant),
        second: relevant_among(k, b, relevant),
        whole: relevant.relevant_count(),
    }
    .ceiling()
}
