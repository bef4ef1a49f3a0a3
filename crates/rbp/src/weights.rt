// The weights of a run's documents, and what is left for the places after them.
ghost use Rattle.std.specs.Prelude.{◌≡◌, ◌-◌, ◌≤◌, ◌<◌, ◌≤ℤ◌, true, false, pos, length, All, Some, IfOk};
ghost use Rattle.measure_laws.specs.Ranks.{IsRankWithin};
ghost use Rattle.measure_laws.specs.Powers.{low_weight, high_weight, low_power, high_power};
ghost use Rattle.measure_laws.specs.Shares.{low_worth, high_worth};
ghost use Rattle.rbp.specs.Persistence.{IsLoose};
ghost use Rattle.measure_core.specs.Worths.{AreWorths};
ghost use Rattle.rbp.specs.Walk.{number_of};
ghost use Rattle.rbp.specs.Numbers.{run_weights};
ghost use Rattle.desk_model.specs.Limits.{PARTS_OF_ONE, RANK_LIMIT};

use crate::rbp::Rbp;
use desk_model::{Mark, Memory};
use measure_core::{RankWorth, RunWeights, rank_or_none, worths_of};
use std::alloc::Global;
use topic_counts::{Powers, Span};

/// The sums of the weights of a run's relevant documents, and of its relevant and unjudged ones.
#[derive(Clone, Copy)]
pub struct RankWeights {
    pub relevant: Span,
    pub possible: Span,
}

/// A weight in parts of 10^18, rounded down and up.
#[derive(Clone, Copy)]
pub struct Parts {
    pub low: u64,
    pub high: u64,
}

/// The number of a mark.
#[inline]
pub fn number_of(mark: Mark) -> usize
    ensures { result ≡ number_of mark }
{
    match mark {
        Mark::Unjudged => 0,
        Mark::Relevant => 1,
        Mark::Other => 2,
    }
}

/// The span from one number to another.
fn span(low: u64, high: u64) -> Span
    ensures lo { result.lo ≡ pos low }
    ensures hi { result.hi ≡ pos high }
    ensures loose { IsLoose result }
{
    Span {
        lo: i128::from(low),
        hi: i128::from(high),
    }
}

impl RankWeights {
    /// What is kept, as spans.
    pub fn of(kept: RunWeights) -> RankWeights
        ensures relevant_lo { result.relevant.lo ≡ pos kept.relevant_low }
        ensures relevant_hi { result.relevant.hi ≡ pos kept.relevant_high }
        ensures possible_lo { result.possible.lo ≡ pos kept.possible_low }
        ensures possible_hi { result.possible.hi ≡ pos kept.possible_high }
        ensures relevant_loose { IsLoose result.relevant }
        ensures possible_loose { IsLoose result.possible }
    {
        RankWeights {
            relevant: span(kept.relevant_low, kept.relevant_high),
            possible: span(kept.possible_low, kept.possible_high),
        }
    }
}

impl Rbp {
    /// The weight of a rank, and none of an absent one.
    pub fn weight_at(&self, rank: Option<u32>) -> Span
        requires { IsRankWithin RANK_LIMIT rank }
        ensures lo { result.lo ≡ pos (low_weight self.now.top self.now.bottom rank) }
        ensures hi { result.hi ≡ pos (high_weight self.now.top self.now.bottom rank) }
        ensures lo_small { result.lo ≤ℤ pos PARTS_OF_ONE }
        ensures hi_small { result.hi ≤ℤ pos PARTS_OF_ONE }
    {
        match rank {
            None => Span { lo: 0, hi: 0 },
            Some(rank) => self.powers.weight(rank),
        }
    }

    /// The weight of a rank as two numbers of parts of 10^18.
    #[inline]
    fn parts_at(&self, rank: u32) -> Parts
        requires { IsRankWithin RANK_LIMIT (Some rank) }
        ensures low { result.low ≡ low_weight self.now.top self.now.bottom (Some rank) }
        ensures high { result.high ≡ high_weight self.now.top self.now.bottom (Some rank) }
    {
        let weight = self.weight_at(Some(rank));
        Parts {
            low: weight.lo as u64,
            high: weight.hi as u64,
        }
    }

    /// The sums of the weights of a run's documents, as they are kept.
    pub fn kept_weights(&self, marks: &[Mark], docs: &[u32]) -> RunWeights
        requires known { All (λ doc. doc < length marks.now) docs.now }
        requires few { length docs.now ≤ RANK_LIMIT }
        ensures { result ≡ run_weights self.now.top self.now.bottom marks.now docs.now }
    {
        // What is kept of the persistence bounds the weights.
        let _ = &self.top;
        // A sum for each mark: no jump depends on the marks, which no processor foresees.
        let mut low = [0u64; 3];
        let mut high = [0u64; 3];
        for (place, doc) in docs.iter().enumerate() {
            let parts = self.parts_at(place as u32 + 1);
            let number = number_of(marks[*doc as usize]);
            low[number] += parts.low;
            high[number] += parts.high;
        }
        RunWeights {
            relevant_low: low[1],
            relevant_high: high[1],
            possible_low: low[0] + low[1],
            possible_high: high[0] + high[1],
        }
    }

    /// The sums of the weights of a run's documents.
    pub fn weights(&self, marks: &[Mark], docs: &[u32]) -> RankWeights
        requires known { All (λ doc. doc < length marks.now) docs.now }
        requires few { length docs.now ≤ RANK_LIMIT }
        ensures relevant_lo { result.relevant.lo ≡
            pos (low_worth self.now.top self.now.bottom false marks.now docs.now) }
        ensures relevant_hi { result.relevant.hi ≡
            pos (high_worth self.now.top self.now.bottom false marks.now docs.now) }
        ensures possible_lo { result.possible.lo ≡
            pos (low_worth self.now.top self.now.bottom true marks.now docs.now) }
        ensures possible_hi { result.possible.hi ≡
            pos (high_worth self.now.top self.now.bottom true marks.now docs.now) }
        ensures relevant_loose { IsLoose result.relevant }
        ensures possible_loose { IsLoose result.possible }
    {
        RankWeights::of(self.kept_weights(marks, docs))
    }

    /// 10^18 times what a tail after so many ranks adds at most.
    pub fn tail_most(&self, ranks: u32) -> i128
        requires { ranks ≤ RANK_LIMIT }
        ensures value { result ≡ pos (high_power self.now.top self.now.bottom ranks) }
        ensures small { result ≤ℤ pos PARTS_OF_ONE }
    {
        self.powers.high(ranks)
    }

    /// 10^18 times what 10^24 relevant places after so many ranks add at least.
    pub fn tail_least(&self, ranks: u32) -> i128
        requires { ranks ≤ RANK_LIMIT }
        ensures value { result ≡ pos (low_power self.now.top self.now.bottom ranks - 1) }
        ensures small { result ≤ℤ pos PARTS_OF_ONE }
    {
        let kept = self.powers.low(ranks);
        if kept > 0 { kept - 1 } else { 0 }
    }
}

/// What ranks are worth: their weights rounded down, by the powers of a persistence.
#[derive(Clone, Copy)]
struct LowWeights<'a> {
    powers: &'a Powers,
    ghost known: { powers.now.last ≡ RANK_LIMIT },
    ghost below: { powers.now.top < powers.now.bottom },
}

impl RankWorth for LowWeights<'_> {
    ghost use Rattle.std.specs.Prelude.{refl};
    ghost use Rattle.measure_laws.specs.Powers.{low_weight};

    ghost worth = { λ w. low_weight w.powers.now.top w.powers.now.bottom };

    fn worth_at(&self, rank: u32) -> u64 {
        match rank_or_none(rank) {
            None => 0,
            Some(rank) => self.powers.weight(rank).lo as u64,
        }
    }

    ghost absent = { λ _. refl };
}

/// The weight of each rank, rounded down, by the rank.
pub fn low_weights(alloc: Global, powers: &Powers) -> Result<Vec<u64>, Memory>
    requires last { powers.now.last ≡ RANK_LIMIT }
    requires below { powers.now.top < powers.now.bottom }
    ensures { IfOk result (λ worths.
        AreWorths (low_weight powers.now.top powers.now.bottom) worths.items) }
{
    worths_of(alloc, &LowWeights { powers })
}

/// What ranks are worth: their weights rounded up.
#[derive(Clone, Copy)]
struct HighWeights<'a> {
    powers: &'a Powers,
    ghost known: { powers.now.last ≡ RANK_LIMIT },
    ghost below: { powers.now.top < powers.now.bottom },
}

impl RankWorth for HighWeights<'_> {
    ghost use Rattle.std.specs.Prelude.{refl};
    ghost use Rattle.measure_laws.specs.Powers.{high_weight};

    ghost worth = { λ w. high_weight w.powers.now.top w.powers.now.bottom };

    fn worth_at(&self, rank: u32) -> u64 {
        match rank_or_none(rank) {
            None => 0,
            Some(rank) => self.powers.weight(rank).hi as u64,
        }
    }

    ghost absent = { λ _. refl };
}

/// The weight of each rank, rounded up, by the rank.
pub fn high_weights(alloc: Global, powers: &Powers) -> Result<Vec<u64>, Memory>
    requires last { powers.now.last ≡ RANK_LIMIT }
    requires below { powers.now.top < powers.now.bottom }
    ensures { IfOk result (λ worths.
        AreWorths (high_weight powers.now.top powers.now.bottom) worths.items) }
{
    worths_of(alloc, &HighWeights { powers })
}

impl RankWorth for Rbp {
    ghost use Rattle.std.specs.Prelude.{refl};
    ghost use Rattle.measure_laws.specs.Powers.{low_weight};

    ghost worth = { λ r. low_weight r.top r.bottom };

    #[inline]
    fn worth_at(&self, rank: u32) -> u64 {
        self.worths[rank as usize]
    }

    ghost absent = { λ _. refl };
}
