//! The powers of a persistence, as many as a ranking has ranks.
ghost use Rattle.std.specs.Prelude.{◌≡◌, ◌-◌, ◌≤ℤ◌, pos, length, IfOk};
ghost use Rattle.desk_model.specs.Limits.{PARTS_OF_ONE, RANK_LIMIT};
ghost use Rattle.desk_model.specs.MeasureText.{IsPersistence};
ghost use Rattle.measure_laws.specs.Powers.{low_power, high_power, low_weight, high_weight};
ghost use Rattle.measure_laws.specs.Ranks.{IsRankWithin};
ghost use Rattle.topic_ends.specs.RankPowers.{ArePowers as Are};

use desk_model::{Memory, Ranking};
use std::alloc::Global;
use std::marker::Model;
use topic_counts::{Powers, Span};

/// The powers of a persistence, as many as a ranking has ranks.
#[derive(Drop)]
pub struct RankPowers {
    powers: Powers,
}

impl Model for RankPowers {
    ghost use Rattle.topic_ends.specs.RankPowers.{ArePowers};
    ghost use Rattle.topic_counts.specs.Places.{Known};

    ghost Value = { Known };

    ghost view = { λ p. p.powers };

    ghost invariant = { λ p. ArePowers p.powers };
}

impl RankPowers {
    /// The powers of top over bottom. The only error is out of memory.
    pub fn new(alloc: Global, top: u32, bottom: u32) -> Result<RankPowers, Memory>
        requires { IsPersistence top bottom }
        ensures top { IfOk result (λ powers. powers.top ≡ top) }
        ensures bottom { IfOk result (λ powers. powers.bottom ≡ bottom) }
        ensures are { IfOk result (λ powers. Are powers) }
    {
        let powers = Powers::new(alloc, top, bottom, 10_000)?;
        Ok(RankPowers { powers })
    }

    /// The weight of a rank in parts of 10^18, and none of an absent one.
    pub fn weight(&self, rank: Option<u32>) -> Span
        requires { IsRankWithin RANK_LIMIT rank }
        ensures lo { result.lo ≡ pos (low_weight self.now.top self.now.bottom rank) }
        ensures hi { result.hi ≡ pos (high_weight self.now.top self.now.bottom rank) }
        ensures lo_small { result.lo ≤ℤ pos PARTS_OF_ONE }
        ensures hi_small { result.hi ≤ℤ pos PARTS_OF_ONE }
    {
        match rank {
            None => Span { lo: 0, hi: 0 },
            Some(rank) => self.powers.weight(rank),
        }
    }

    /// What a tail of a ranking adds at most.
    pub fn tail_most(&self, ranking: &Ranking) -> i128
        ensures value { result ≡
            pos (high_power self.now.top self.now.bottom (length ranking.now)) }
        ensures small { result ≤ℤ pos PARTS_OF_ONE }
    {
        self.powers.high(ranking.docs().len() as u32)
    }

    /// What a tail of 10^24 relevant places adds at least.
    pub fn tail_least(&self, ranking: &Ranking) -> i128
        ensures value { result ≡ pos (low_power self.now.top self.now.bottom (length ranking.now) -
            1) }
        ensures small { result ≤ℤ pos PARTS_OF_ONE }
    {
        let whole = self.powers.low(ranking.docs().len() as u32);
        if whole > 0 { whole - 1 } else { 0 }
    }
}
