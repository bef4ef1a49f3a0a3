ghost use Rattle.std.proofs.Props.{props};
ghost use Rattle.rprec.specs.Blocks.{IsPairOf};

use crate::prefixes::{MarkedDocs, Packed, Prefixes, next_number};
use desk_model::Mark;
use measure_core::{BLOCK, RunSums};
use topic_counts::counts::Counts;

/// Two runs on a topic, and what is known of them at the ends of blocks of documents.
#[derive(Drop)]
pub struct RunPair<'p> {
    pub a: &'p [u32],
    pub b: &'p [u32],
    /// The sums of the first run.
    pub first: &'p RunSums,
    /// The sums of the second run.
    pub second: &'p RunSums,
    /// For each number of blocks, from 0, how many unjudged documents both share up to there.
    pub both: &'p [u32],
    /// The same at each place, counted there and not before.
    pub shared: &'p [u8],
    pub marks: &'p [Mark],
    /// The counts of all documents of the topic.
    pub all: Counts,
    /// How many documents the longer run has, and at least 1.
    pub longest: u32,
    pub ghost is: { IsPairOf marks.now a.now b.now first.now.numbers second.now.numbers
        both.now shared.now longest all } by { Prim.hlevel props },
}

impl<'p> RunPair<'p> {
    ghost use Rattle.std.specs.Prelude.{◌≡◌, ◌+◌, ◌*◌, ◌<◌, ◌≤◌};
    ghost use Rattle.rprec.specs.Packed.{packed_of};
    ghost use Rattle.rprec.specs.Sums.{prefixes, steps_of, swapped_pair};

    /// The same with the runs swapped.
    pub fn swapped(&self) -> RunPair<'p>
        ensures { result ≡ swapped_pair self.now }
    {
        RunPair {
            a: self.b,
            b: self.a,
            first: self.second,
            second: self.first,
            both: self.both,
            shared: self.shared,
            marks: self.marks,
            all: self.all,
            longest: self.longest,
        }
    }

    /// How many depths beyond the number of documents judged relevant are to be looked at.
    pub fn steps(&self) -> u32
        ensures { result ≡ steps_of self.now }
    {
        let beyond = self.longest.saturating_sub(self.all.relevant);
        beyond.min(self.all.unjudged)
    }

    /// The counts at the end of a block.
    pub fn at_block(&self, block: u32) -> Packed
        requires { 10 * block ≤ self.now.longest }
        ensures { result ≡ packed_of (prefixes self.now (10 * block)) }
    {
        let both = self.both[block as usize];
        Packed {
            first: self.first.numbers[block as usize] - both,
            second: self.second.numbers[block as usize] - both,
        }
    }

    /// The counts at the depth after one.
    pub fn deeper(&self, packed: Packed, depth: u32) -> Packed
        requires packed { packed ≡ packed_of (prefixes self.now depth) }
        requires depth { depth < self.now.longest }
        ensures { result ≡ packed_of (prefixes self.now (depth + 1)) }
    {
        let both = u32::from(self.shared[depth as usize]);
        let marks = self.marks;
        let one = next_number(
            &MarkedDocs {
                docs: self.a,
                marks,
            },
            depth,
        );
        let two = next_number(
            &MarkedDocs {
                docs: self.b,
                marks,
            },
            depth,
        );
        Packed {
            first: packed.first + one - both,
            second: packed.second + two - both,
        }
    }

    /// The counts at a depth that a run has.
    pub fn packed_at(&self, depth: u32) -> Packed
        requires { depth ≤ self.now.longest }
        ensures { result ≡ packed_of (prefixes self.now depth) }
    {
        let block = depth / BLOCK;
        let mut packed = self.at_block(block);
        for place in block * BLOCK..depth {
            packed = self.deeper(packed, place);
        }
        packed
    }

    /// The counts at any depth.
    pub fn prefixes_at(&self, depth: u32) -> Prefixes
        ensures { result ≡ prefixes self.now depth }
    {
        self.packed_at(depth.min(self.longest)).unpacked()
    }
}
