ghost use Rattle.std.specs.Prelude.{◌≡◌, neg_ℤ, length, IfOk};
ghost use Rattle.desk_model.specs.Extremes.{Ends};
ghost use Rattle.desk_model.specs.MeasureText.{IsMeasure};
ghost use Rattle.measure_laws.specs.Ends.{HasEnds, IsUpperEnd};
ghost use Rattle.measure_laws.specs.Shares.{IsModest};
ghost use Rattle.topic_ends.specs.Least.{AreRankings};
ghost use Rattle.topic_ends.specs.RunBounds.{AreKnown};

use crate::completion::UpperEnds;
use crate::counted::TopicMarks;
use crate::kind::Kind;
use crate::rank_powers::RankPowers;
use crate::ranked::Ranked;
use crate::relevance::Relevance;
use desk_model::{MeasureName, Memory, Ranking};
use std::alloc::Global;
use std::marker::Model;

/// The ends of a measure, computed from counts of documents and ranks.
#[derive(Drop)]
pub struct TopicEnds {
    kind: Kind,
}

impl Model for TopicEnds {
    ghost use Rattle.desk_model.specs.declared.types.MeasureName.{MeasureName as Name};
    ghost use Rattle.topic_ends.specs.Kinds.{name_of, IsKind};

    ghost Value = { Name };

    ghost view = { λ e. name_of e.kind };

    ghost invariant = { λ e. IsKind e.kind };
}

impl TopicEnds {
    /// The ends of this measure. Only out of memory fails, and only under rank-biased precision.
    pub fn new(alloc: Global, measure: &MeasureName) -> Result<TopicEnds, Memory>
        requires { IsMeasure measure.now }
        ensures { IfOk result (λ ends. ends ≡ measure.now) }
    {
        let kind = match *measure {
            MeasureName::Precision(k) => Kind::Precision(k),
            MeasureName::Recall(k) => Kind::Recall(k),
            MeasureName::RPrecision => Kind::RPrecision,
            MeasureName::Reciprocal => Kind::Reciprocal,
            MeasureName::Biased { top, bottom } => {
                Kind::Biased(RankPowers::new(alloc, top, bottom)?)
            }
            MeasureName::AveragePrecision => Kind::AveragePrecision,
        };
        Ok(TopicEnds { kind })
    }

    /// The lower end of the least difference, a's score minus b's, over all completions of the marks,
    /// in units of the measure. The upper end of the greatest difference is that of the swapped
    /// rankings, negated.
    pub fn least_low(&self, a: &Ranking, b: &Ranking, marks: &TopicMarks<'_>) -> i128
        requires { AreRankings (length marks.now) a.now b.now }
        ensures low { (ends : Ends) → HasEnds self.now marks.now a.now b.now ends →
            result ≡ ends.least_lo }
        ensures most { (ends : Ends) → HasEnds self.now marks.now b.now a.now ends →
            neg_ℤ result ≡ ends.most_hi }
        ensures ends { (ends : Ends) × HasEnds self.now marks.now a.now b.now ends }
        ensures modest { IsModest result }
    {
        let a = Ranked {
            ranking: a,
            bounds: None,
        };
        let b = Ranked {
            ranking: b,
            bounds: None,
        };
        self.least_low_of(&a, &b, marks)
    }

    /// The same, where bounds of the runs may be known.
    pub fn least_low_of(&self, a: &Ranked<'_>, b: &Ranked<'_>, marks: &TopicMarks<'_>) -> i128
        requires rankings { AreRankings (length marks.now) a.now.ranking.now b.now.ranking.now }
        requires a { AreKnown marks.now a.now.ranking.now a.now.bounds }
        requires b { AreKnown marks.now b.now.ranking.now b.now.bounds }
        ensures low { (ends : Ends) →
            HasEnds self.now marks.now a.now.ranking.now b.now.ranking.now ends →
            result ≡ ends.least_lo }
        ensures most { (ends : Ends) →
            HasEnds self.now marks.now b.now.ranking.now a.now.ranking.now ends →
            neg_ℤ result ≡ ends.most_hi }
        ensures ends { (ends : Ends) ×
            HasEnds self.now marks.now a.now.ranking.now b.now.ranking.now ends }
        ensures modest { IsModest result }
    {
        self.kind.least_low(a, b, marks)
    }

    /// The upper end of the difference in one completion, in units of the measure; under rank-biased
    /// precision with the tails of the least case.
    pub fn upper_end<T: Relevance>(&self, a: &Ranking, b: &Ranking, relevant: &T) -> i128
        requires { AreRankings (T.universe relevant.now) a.now b.now }
        ensures upper { IsUpperEnd self.now (T.universe relevant.now) (T.truth relevant.now) a.now
            b.now result }
        ensures modest { IsModest result }
    {
        self.upper_ends(a, b, relevant, relevant).low
    }

    /// The same in two completions: of a's score less b's in the low one, and of b's less a's in the high one.
    pub fn upper_ends<T: Relevance>(&self, a: &Ranking, b: &Ranking, low: &T, high: &T) -> UpperEnds
        requires low { AreRankings (T.universe low.now) a.now b.now }
        requires high { AreRankings (T.universe high.now) b.now a.now }
        ensures low { IsUpperEnd self.now (T.universe low.now) (T.truth low.now) a.now b.now
            result.low }
        ensures high { IsUpperEnd self.now (T.universe high.now) (T.truth high.now) b.now a.now
            result.high }
        ensures low_modest { IsModest result.low }
        ensures high_modest { IsModest result.high }
    {
        self.kind.upper_ends(a, b, low, high)
    }
}
