//! The parts of a rank from a table, with no division and no jump.
ghost use Rattle.std.specs.Prelude.{◌≡◌, ◌+◌, ◌<◌, ◌≤◌, true, false, IfOk, IfSome};
ghost use Rattle.desk_model.specs.Limits.{PARTS_OF_ONE, RANK_LIMIT};
ghost use Rattle.precision_candidates.specs.Inverse.{inverse_of};
ghost use Rattle.precision_candidates.specs.Sums.{IsBefore, added, worth_of};
ghost use Rattle.precision_candidates.specs.Table.{AreParts, IsPart};

use crate::sums::Sum;
use desk_model::Memory;
use std::alloc::Global;
use std::marker::Model;

/// What 10^18 is over a rank: whole parts, and the rest of that division and what rounds a division by the rank up,
/// both times the rank's inverse.
#[derive(Clone, Copy, PartialEq, Eq)]
pub struct Part {
    pub whole: u64,
    pub rest: u64,
    pub up: u64,
}

/// A rank of a run, from 1. Its facts: a run may have it.
#[derive(Clone, Copy)]
pub struct Rank {
    pub number: u64,
    pub ghost some: { 0 < number },
    pub ghost short: { number ≤ RANK_LIMIT },
}

/// How many parts make a precision of 1.
const UNIT: u64 = 1_000_000_000_000_000_000;

/// What an inverse makes of 1.
const INVERSE_UNIT: u64 = 2_199_023_255_552;

/// The greatest rank of a run.
const MOST_RANKS: u32 = 10_000;

/// What a division by the rank multiplies by.
pub fn inverse(rank: Rank) -> u64
    ensures { result ≡ inverse_of rank.number }
{
    (INVERSE_UNIT + (rank.number - 1)) / rank.number
}

/// The part of a rank.
pub fn part_for(rank: Rank) -> Part
    ensures { IsPart rank.number result }
{
    let inverse = inverse(rank);
    Part {
        whole: UNIT / rank.number,
        rest: UNIT % rank.number * inverse,
        up: (rank.number - 1) * inverse,
    }
}

/// 10^18 * j / rank, rounded up or down, by the rank's part.
pub fn worth_at(high: bool, j: u64, rank: Rank, part: Part) -> u64
    requires deep { j ≤ rank.number }
    requires part { IsPart rank.number part }
    ensures value { result ≡ worth_of high j rank.number }
    ensures small { result ≤ PARTS_OF_ONE }
{
    // Whose part it is.
    let _ = rank;
    let up = if high { part.up } else { 0 };
    j * part.whole + (j * part.rest + up) / INVERSE_UNIT
}

/// A sum with the next place, where it is true, without a jump.
pub fn sum_with(sum: Sum, high: bool, gain: bool, rank: Rank, part: Part) -> Sum
    requires before { IsBefore rank.number sum }
    requires part { IsPart rank.number part }
    ensures value { result ≡ added (worth_of high) sum gain rank.number }
    ensures before { IsBefore (rank.number + 1) result }
{
    let one = u64::from(gain);
    let found = sum.found + one;
    Sum {
        found,
        parts: sum.parts + u128::from(worth_at(high, found, rank, part) * one),
    }
}

/// The parts of all ranks of a run.
fn all_parts(alloc: Global) -> Result<Vec<Part>, Memory>
    ensures { IfOk result (λ parts. AreParts parts.items) }
{
    let mut parts = Vec::new(alloc);
    for place in 0..MOST_RANKS {
        let rank = Rank {
            number: u64::from(place) + 1,
        };
        parts.push(part_for(rank))?;
    }
    Ok(parts)
}

/// The parts of the ranks of a run: kept, or found by divisions where they are asked for. As a value it says whether
/// they are kept.
#[derive(Drop)]
pub struct Parts {
    kept: Option<Vec<Part>>,
}

impl Model for Parts {
    ghost use Rattle.std.specs.Prelude.{Bool, is_some, IfSome};
    ghost use Rattle.precision_candidates.specs.Table.{AreParts};

    ghost Value = { Bool };

    ghost view = { λ p. is_some p.kept };

    ghost invariant = { λ p. IfSome p.kept (λ parts. AreParts parts.items) };
}

impl Parts {
    /// Parts that are found where they are asked for. It takes no memory.
    pub fn found() -> Parts
        ensures { result ≡ false }
    {
        Parts { kept: None }
    }

    /// Parts that are kept.
    ///
    /// # Errors
    /// `Memory`: out of memory.
    pub fn kept(alloc: Global) -> Result<Parts, Memory>
        ensures { IfOk result (λ parts. parts ≡ true) }
    {
        let parts = all_parts(alloc)?;
        Ok(Parts { kept: Some(parts) })
    }

    /// The part of a rank.
    #[inline]
    pub fn at(&self, rank: Rank) -> Part
        ensures { IsPart rank.number result }
    {
        match &self.kept {
            Some(parts) => parts[rank.number as usize - 1],
            None => part_for(rank),
        }
    }

    /// The parts of all ranks, if they are kept.
    pub fn all(&self) -> Option<&[Part]>
        ensures { IfSome result (λ parts. AreParts parts.now) }
    {
        self.kept.as_deref()
    }
}

/// What tells the part of a rank.
pub trait RankParts {
    /// The part of a rank.
    fn part(&self, rank: Rank) -> Part
        ensures { IsPart rank.number result };
}

/// Parts that are kept, that of rank 1 at place 0.
#[derive(Clone, Copy)]
pub struct KeptParts<'p> {
    pub parts: &'p [Part],
    pub ghost are: { AreParts parts.now },
}

impl RankParts for KeptParts<'_> {
    #[inline]
    fn part(&self, rank: Rank) -> Part {
        self.parts[rank.number as usize - 1]
    }
}

/// Parts that are found by divisions.
#[derive(Clone, Copy)]
pub struct FoundParts;

impl RankParts for FoundParts {
    fn part(&self, rank: Rank) -> Part {
        part_for(rank)
    }
}
