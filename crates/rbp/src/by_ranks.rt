// The corrections of the documents of two runs, by the ranks of the first run's and one pass over the
// second's.
ghost use Rattle.std.specs.Prelude.{◌≡◌, ◌*◌, ◌≤◌, if◌then◌else◌, Some};
ghost use Rattle.desk_model.specs.Limits.{PARTS_OF_ONE, RANK_LIMIT};
ghost use Rattle.desk_model.specs.declared.types.Mark.TheVariants.{Unjudged, Relevant};
ghost use Rattle.measure_laws.specs.Powers.{low_weight, high_weight};
ghost use Rattle.measure_laws.specs.Ranks.{IsRankWithin, comes_before};
ghost use Rattle.rbp.specs.Added.{IsAdded, IsUpTo, AreAddedSums, added};
ghost use Rattle.rbp.specs.Walk.{AreCorrections};
ghost use Rattle.measure_core.specs.Worths.{rank_or_none};

use crate::corrections::Shares;
use crate::rbp::Rbp;
use crate::weights::Parts;
use desk_model::Mark;
use measure_core::{
    Cell, KeptPair, MarkedRun, RankedMeasure, RunSums, RunWeights, SetApart, has_bit,
};
use topic_counts::Span;

/// What documents of both runs add to the sums of shares beyond what their ranks alone add, in parts of
/// 10^18.
#[derive(Clone, Copy)]
pub struct Added {
    /// Unjudged ones to the ends of the least case.
    pub least_lo: u64,
    pub least_hi: u64,
    /// Unjudged ones, taken from the ends of the most case.
    pub most_lo: u64,
    pub most_hi: u64,
    /// Relevant ones to both lower ends.
    pub relevant_lo: u64,
    /// Relevant ones, taken from both upper ends.
    pub relevant_hi: u64,
}

impl Added {
    /// What no document adds.
    const NONE: Added = Added {
        least_lo: 0,
        least_hi: 0,
        most_lo: 0,
        most_hi: 0,
        relevant_lo: 0,
        relevant_hi: 0,
    };

    /// With what one more document adds.
    #[inline]
    fn with(self, more: Added) -> Added
        requires sums { IsUpTo (2 * PARTS_OF_ONE) self }
        requires more { IsUpTo PARTS_OF_ONE more }
        ensures { result ≡ added self more }
    {
        Added {
            least_lo: self.least_lo + more.least_lo,
            least_hi: self.least_hi + more.least_hi,
            most_lo: self.most_lo + more.most_lo,
            most_hi: self.most_hi + more.most_hi,
            relevant_lo: self.relevant_lo + more.relevant_lo,
            relevant_hi: self.relevant_hi + more.relevant_hi,
        }
    }

    /// The sums that they make.
    fn shares(self) -> Shares
        ensures { AreAddedSums self result }
    {
        let relevant_lo = i128::from(self.relevant_lo);
        let relevant_hi = i128::from(self.relevant_hi);
        Shares {
            least: Span {
                lo: i128::from(self.least_lo) + relevant_lo,
                hi: i128::from(self.least_hi) - relevant_hi,
            },
            most: Span {
                lo: relevant_lo - i128::from(self.most_lo),
                hi: -(i128::from(self.most_hi) + relevant_hi),
            },
        }
    }
}

/// One of two numbers.
#[inline]
fn choose(first: bool, x: u64, y: u64) -> u64
    ensures { result ≡ (if first then x else y) }
{
    if first { x } else { y }
}

/// Whether a rank comes before one that is 0 for an absent document.
#[inline]
fn is_before(y: u32, x: u32) -> bool
    ensures { result ≡ comes_before (Some y) (rank_or_none x) }
{
    (x == 0) | (y < x)
}

/// Whether a rank that is 0 for an absent document comes before another.
#[inline]
fn is_after(y: u32, x: u32) -> bool
    ensures { result ≡ comes_before (rank_or_none x) (Some y) }
{
    (x > 0) & (x < y)
}

impl Rbp {
    /// The weight of a rank, and none of the rank 0.
    #[inline]
    fn kept_parts(&self, rank: u32) -> Parts
        requires { rank ≤ RANK_LIMIT }
        ensures low { result.low ≡ low_weight self.now.top self.now.bottom (rank_or_none rank) }
        ensures high { result.high ≡ high_weight self.now.top self.now.bottom (rank_or_none rank) }
    {
        Parts {
            low: self.worths[rank as usize],
            high: self.high_worths[rank as usize],
        }
    }

    /// What an unjudged document with these two ranks adds, the first of them 0 where the first run
    /// lacks it.
    #[inline]
    fn unjudged_adds(&self, x: u32, y: u32) -> Added
        requires first { x ≤ RANK_LIMIT }
        requires second { IsRankWithin RANK_LIMIT (Some y) }
        ensures { IsAdded self.now.top self.now.bottom Unjudged (rank_or_none x) (Some y) result }
    {
        // What is kept of the persistence orders the weights.
        let _ = &self.top;
        let first = self.kept_parts(x);
        let second = self.kept_parts(y);
        let before = is_before(y, x);
        let after = is_after(y, x);
        Added {
            least_lo: choose(before, first.low, second.high),
            least_hi: choose(before, first.high.min(second.low), second.low),
            most_lo: choose(after, first.low.min(second.high), first.low),
            most_hi: choose(after, second.low, first.high),
            relevant_lo: 0,
            relevant_hi: 0,
        }
    }

    /// What a relevant one adds.
    #[inline]
    fn relevant_adds(&self, x: u32, y: u32) -> Added
        requires first { x ≤ RANK_LIMIT }
        requires second { IsRankWithin RANK_LIMIT (Some y) }
        ensures { IsAdded self.now.top self.now.bottom Relevant (rank_or_none x) (Some y) result }
    {
        // What is kept of the persistence orders the weights.
        let _ = &self.top;
        let first = self.kept_parts(x);
        let second = self.kept_parts(y);
        let before = is_before(y, x);
        let after = is_after(y, x);
        Added {
            least_lo: 0,
            least_hi: 0,
            most_lo: 0,
            most_hi: 0,
            relevant_lo: choose(before, 0, second.high.saturating_sub(first.low)),
            relevant_hi: choose(after, 0, first.high.saturating_sub(second.low)),
        }
    }

    /// What a document with this mark adds.
    fn adds(&self, x: u32, y: u32, mark: Mark) -> Added
        requires first { x ≤ RANK_LIMIT }
        requires second { IsRankWithin RANK_LIMIT (Some y) }
        ensures { IsAdded self.now.top self.now.bottom mark (rank_or_none x) (Some y) result }
    {
        match mark {
            Mark::Relevant => self.relevant_adds(x, y),
            Mark::Unjudged => self.unjudged_adds(x, y),
            Mark::Other => Added::NONE,
        }
    }

    /// The sums of the corrections of the documents of both runs, by one pass over the second's by the
    /// bits and the ranks of the first's. Few documents of two runs are of both and may be relevant.
    pub fn corrections_by_ranks(&self, apart: &SetApart) -> Shares
        ensures { AreCorrections self.now.top self.now.bottom apart.now.marks.now apart.now.a.now
            apart.now.b.now result }
    {
        let marks = apart.marks;
        let bits = apart.bits;
        let ranks = apart.ranks;
        // What is kept of the persistence bounds the sums.
        let _ = &self.top;
        let mut sums = Added::NONE;
        for (place, doc) in apart.b.docs().iter().enumerate() {
            if has_bit(bits, *doc) {
                let mark = marks[*doc as usize];
                let rank = ranks[*doc as usize];
                sums = sums.with(self.adds(rank, place as u32 + 1, mark));
            }
        }
        sums.shares()
    }
}

impl RankedMeasure for Rbp {
    ghost use Rattle.std.specs.Prelude.{⊤};
    ghost use Rattle.rbp.specs.Numbers.{biased_cell, run_weights};

    ghost ranked_cell_of = { λ r. biased_cell r.top r.bottom };

    ghost weights_of = { λ r. run_weights r.top r.bottom };

    ghost are_sums = { λ _ _ _ _. ⊤ };

    fn run_weights(&self, marked: &MarkedRun) -> RunWeights {
        self.kept_weights(marked.marks, marked.run.docs())
    }

    fn run_sums(&self, _marked: &MarkedRun) -> RunSums {
        RunSums::NONE
    }

    fn ranked_cell(&self, apart: &SetApart, kept: KeptPair<'_>) -> Cell {
        // What is kept of the persistence bounds the ends.
        let _ = &self.top;
        self.cell_by(
            apart.a,
            apart.b,
            apart.marks,
            kept.weights,
            self.corrections_by_ranks(apart),
        )
    }
}
