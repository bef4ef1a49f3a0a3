//! The numbers of one run and of two runs on a topic, in parts of 10^18.
ghost use Rattle.std.specs.Prelude.{◌*◌, ◌≤◌};
ghost use Rattle.desk_model.specs.Limits.{PARTS_OF_ONE, RANK_LIMIT};
ghost use Rattle.topic_counts.specs.Ends.{IsNear};

use measure_core::CrossScores;

/// A run's bounds, and its own numbers in its two candidates, rounded inward. Its facts: none is great.
#[derive(Clone, Copy)]
pub struct RunNumbers {
    pub lo: u128,
    pub hi: u128,
    pub low_in_high: u128,
    pub high_in_low: u128,
    pub ghost lo_small: { lo ≤ RANK_LIMIT * PARTS_OF_ONE },
    pub ghost hi_small: { hi ≤ RANK_LIMIT * PARTS_OF_ONE },
    pub ghost in_high_small: { low_in_high ≤ RANK_LIMIT * PARTS_OF_ONE },
    pub ghost in_low_small: { high_in_low ≤ RANK_LIMIT * PARTS_OF_ONE },
}

/// One run of a pair: its numbers, and the other run's scores in its two candidates, rounded outward. Its facts: no
/// score is great.
#[derive(Clone, Copy)]
pub struct PairRun {
    pub numbers: RunNumbers,
    pub other: CrossScores,
    pub ghost in_high_small: { other.in_high ≤ RANK_LIMIT * PARTS_OF_ONE },
    pub ghost in_low_small: { other.in_low ≤ RANK_LIMIT * PARTS_OF_ONE },
}

/// Which completion the least case is: none of the unjudged documents is true, or those of the first run's low
/// candidate, or of the second run's high one.
#[derive(Clone, Copy, PartialEq, Eq)]
pub enum Case {
    OfNone,
    OfLow,
    OfHigh,
}

/// The ends of the least difference, and its case. Its facts: neither end is far from 0.
#[derive(Clone, Copy)]
pub struct Least {
    pub lo: i128,
    pub hi: i128,
    pub kind: Case,
    pub ghost lo_near: { IsNear lo },
    pub ghost hi_near: { IsNear hi },
}
