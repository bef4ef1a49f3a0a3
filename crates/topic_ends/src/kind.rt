use crate::completion::UpperEnds;
use crate::counted::TopicMarks;
use crate::pair::MarkedPair;
use crate::rank_powers::RankPowers;
use crate::ranked::Ranked;
use crate::relevance::Relevance;
use crate::{average, biased, precision, recall, reciprocal, rprecision};
use desk_model::Ranking;

/// A measure by what its ends are computed from.
#[derive(Drop)]
pub enum Kind {
    /// `P_k`.
    Precision(u32),
    /// `recall_k`.
    Recall(u32),
    /// `Rprec`.
    RPrecision,
    /// `recip_rank`.
    Reciprocal,
    /// `rbp_p`, with the powers of its persistence.
    Biased(RankPowers),
    /// `map`.
    AveragePrecision,
}

impl Kind {
    ghost use Rattle.std.specs.Prelude.{length};
    ghost use Rattle.measure_laws.specs.Ends.{IsUpperEnd};
    ghost use Rattle.topic_ends.specs.Kinds.{name_of, IsKind};
    ghost use Rattle.topic_ends.specs.Least.{AreRankings, IsLeastLow};
    ghost use Rattle.topic_ends.specs.RunBounds.{AreKnown};

    /// The lower end of the least difference.
    pub fn least_low(&self, x: &Ranked<'_>, y: &Ranked<'_>, marks: &TopicMarks<'_>) -> i128
        requires kind { IsKind self.now }
        requires rankings { AreRankings (length marks.now) x.now.ranking.now y.now.ranking.now }
        requires x { AreKnown marks.now x.now.ranking.now x.now.bounds }
        requires y { AreKnown marks.now y.now.ranking.now y.now.bounds }
        ensures { IsLeastLow (name_of self.now) marks.now x.now.ranking.now y.now.ranking.now
            result }
    {
        let pair = MarkedPair {
            a: x.ranking,
            b: y.ranking,
            marks: marks.as_slice(),
        };
        match self {
            Kind::Precision(k) => precision::least_low(*k, &pair),
            Kind::Recall(k) => recall::least_low(*k, &pair, marks.all()),
            Kind::RPrecision => rprecision::least_low(&pair, marks.all()),
            Kind::Reciprocal => reciprocal::least_low(&pair),
            Kind::Biased(powers) => biased::least_low(powers, &pair),
            Kind::AveragePrecision => average::least_low(x, y, marks.as_slice(), marks.all()),
        }
    }

    /// The upper ends of the differences in two completions, a's score less b's and b's less a's. Under rank-biased
    /// precision both rankings are walked over once.
    pub fn upper_ends<T: Relevance>(&self, a: &Ranking, b: &Ranking, low: &T, high: &T) -> UpperEnds
        requires kind { IsKind self.now }
        requires low { AreRankings (T.universe low.now) a.now b.now }
        requires high { AreRankings (T.universe high.now) b.now a.now }
        ensures low { IsUpperEnd (name_of self.now) (T.universe low.now) (T.truth low.now) a.now
            b.now result.low }
        ensures high { IsUpperEnd (name_of self.now) (T.universe high.now) (T.truth high.now) b.now
            a.now result.high }
    {
        match self {
            Kind::Precision(k) => UpperEnds {
                low: precision::upper_end(*k, a, b, low),
                high: precision::upper_end(*k, b, a, high),
            },
            Kind::Recall(k) => UpperEnds {
                low: recall::upper_end(*k, a, b, low),
                high: recall::upper_end(*k, b, a, high),
            },
            Kind::RPrecision => UpperEnds {
                low: rprecision::upper_end(a, b, low),
                high: rprecision::upper_end(b, a, high),
            },
            Kind::Reciprocal => UpperEnds {
                low: reciprocal::upper_end(a, b, low),
                high: reciprocal::upper_end(b, a, high),
            },
            Kind::Biased(powers) => biased::upper_ends(powers, a, b, low, high),
            Kind::AveragePrecision => UpperEnds {
                low: average::upper_end(a, b, low),
                high: average::upper_end(b, a, high),
            },
        }
    }
}
