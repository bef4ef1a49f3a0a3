//! Precisions in whole parts of S = 10^18, and their sum as it grows along a ranking.
ghost use Rattle.std.specs.Prelude.{◌≡◌, ◌+◌, ◌<◌, ◌≤◌};
ghost use Rattle.desk_model.specs.Limits.{PARTS_OF_ONE, RANK_LIMIT};
ghost use Rattle.topic_ends.specs.PartSums.{IsBefore, added, worth_of};

const PARTS: u64 = 1_000_000_000_000_000_000;

/// How many relevant documents were met, and the sum of their precisions, each in parts.
#[derive(Clone, Copy, PartialEq, Eq)]
pub struct PartSum {
    pub found: u64,
    pub parts: u128,
}

/// A rank, from 1.
#[derive(Clone, Copy)]
pub struct Rank {
    pub number: u64,
    pub ghost some: { 0 < number },
    pub ghost short: { number ≤ RANK_LIMIT },
}

/// S times j over a rank, rounded up or down. Neither product is beyond 64 bits.
pub fn part_of(high: bool, j: u64, rank: Rank) -> u64
    requires { j ≤ rank.number }
    ensures value { result ≡ worth_of high j rank.number }
    ensures small { result ≤ PARTS_OF_ONE }
{
    let rank = rank.number;
    let up = if high { rank - 1 } else { 0 };
    j * (PARTS / rank) + (j * (PARTS % rank) + up) / rank
}

impl PartSum {
    /// The sum of no precisions.
    pub const NONE: PartSum = PartSum { found: 0, parts: 0 };

    /// With the document at the next rank, where it is relevant.
    pub fn with(self, high: bool, gain: bool, rank: Rank) -> PartSum
        requires { IsBefore rank.number self }
        ensures value { result ≡ added (worth_of high) self gain rank.number }
        ensures before { IsBefore (rank.number + 1) result }
    {
        if !gain {
            return self;
        }
        let found = self.found + 1;
        PartSum {
            found,
            parts: self.parts + u128::from(part_of(high, found, rank)),
        }
    }
}
