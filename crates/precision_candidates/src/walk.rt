//! A walk along a ranking that estimates the sum of each candidate.
ghost use Rattle.std.specs.Prelude.{◌≡◌, ◌+◌, ◌*◌, ◌<◌, ◌≤◌};
ghost use Rattle.desk_model.specs.Limits.{PARTS_OF_ONE, RANK_LIMIT};
ghost use Rattle.precision_candidates.specs.Sums.{IsBefore};
ghost use Rattle.precision_candidates.specs.Table.{IsPart};
ghost use Rattle.precision_candidates.specs.Walk.{AreTotals, inverse_if, walked};

use crate::candidate::{Side, gains};
use crate::sums::Sum;
use crate::table::{Part, Rank, sum_with, worth_at};
use desk_model::Mark;

/// What is known of the documents that a walk has passed.
#[derive(Clone, Copy, PartialEq, Eq)]
pub struct Walk {
    /// How many of them are unjudged.
    pub passed: u32,
    /// Their sum where the unjudged ones are as those are that come first.
    pub near: Sum,
    /// Their sum where the unjudged ones are as those are that come last.
    pub far: Sum,
    /// The sum of the inverses of the ranks that are true in the second.
    pub inverses: u128,
}

/// The second and the third of the sums, of the whole ranking.
#[derive(Clone, Copy, PartialEq, Eq)]
pub struct Totals {
    pub far: u128,
    pub inverses: u128,
}

/// One over a rank in parts of 10^18, rounded up, where its place is true.
fn inverse_at(gain: bool, rank: Rank, part: Part) -> u64
    requires { IsPart rank.number part }
    ensures value { result ≡ inverse_if gain rank.number }
    ensures small { result ≤ PARTS_OF_ONE }
{
    if gain {
        worth_at(true, 1, rank, part)
    } else {
        0
    }
}

impl Walk {
    /// Before the first document.
    pub const START: Walk = Walk {
        passed: 0,
        near: Sum::NONE,
        far: Sum::NONE,
        inverses: 0,
    };

    /// With the next document.
    pub fn with(self, side: &Side<'_>, mark: Mark, rank: Rank) -> Walk
        requires passed { self.passed ≤ RANK_LIMIT }
        requires near { IsBefore rank.number self.near }
        requires far { IsBefore rank.number self.far }
        requires inverses { self.inverses ≤ RANK_LIMIT * PARTS_OF_ONE }
        ensures value { result ≡ walked side.now.high self mark rank.number }
        ensures near { IsBefore (rank.number + 1) result.near }
        ensures far { IsBefore (rank.number + 1) result.far }
        ensures inverses { result.inverses ≤ self.inverses + PARTS_OF_ONE }
    {
        let part = side.parts.at(rank);
        let sooner = gains(side.high, 1, mark);
        let later = gains(side.high, 0, mark);
        Walk {
            passed: self.passed + u32::from(mark == Mark::Unjudged),
            near: sum_with(self.near, side.high, sooner, rank, part),
            far: sum_with(self.far, side.high, later, rank, part),
            inverses: self.inverses + u128::from(inverse_at(later, rank, part)),
        }
    }
}

/// The totals of the whole ranking.
pub fn totals_of(side: &Side<'_>) -> Totals
    ensures { AreTotals side.now.high side.now.marks.now side.now.docs.now result }
{
    let mut far = Sum::NONE;
    let mut inverses = 0;
    let mut rank = 1;
    for doc in side.docs {
        let later = gains(side.high, 0, side.marks[*doc as usize]);
        let at = Rank { number: rank };
        let part = side.parts.at(at);
        far = sum_with(far, side.high, later, at, part);
        inverses += u128::from(inverse_at(later, at, part));
        rank += 1;
    }
    Totals {
        far: far.parts,
        inverses,
    }
}
