ghost use Rattle.std.specs.Prelude.{◌≡◌, ℕ, ◌+◌, ◌-◌, ◌*◌, ◌<◌, ◌≤◌, false};
ghost use Rattle.rprec.specs.Greedy.{candidate};
ghost use Rattle.rprec.specs.Search.{IsBestOf, IsBestBetween, precedes};
ghost use Rattle.rprec.specs.Sums.{choice_at, prefixes as counts_at, steps_of};

use crate::greedy::{DepthCandidate, Small, greedy_choice};
use crate::pair::RunPair;
use crate::prefixes::{Prefixes, counts_in};
use crate::search::{Shallow, is_less, preferred};
use measure_core::BLOCK;

/// How many blocks are left out or looked into together.
const STRETCH: u32 = 5;

impl<'p> RunPair<'p> {
    /// The greedy choice at the end of a block.
    fn choice_at_block(&self, block: u32) -> Shallow
        requires low { self.now.all.relevant < 10 * block }
        requires high { 10 * block ≤ self.now.all.relevant + steps_of self.now }
        ensures { result.candidate ≡
            candidate (counts_at self.now (10 * block)) self.now.all (10 * block -
            self.now.all.relevant) }
    {
        let prefixes = self.at_block(block).unpacked();
        let chosen = block * BLOCK - self.all.relevant;
        let small = greedy_choice(prefixes, chosen, self.all);
        Shallow {
            candidate: small.candidate,
        }
    }

    /// A good one of the greedy choices and an earlier candidate: the best of those at the ends of
    /// stretches.
    fn guess(&self, earlier: Shallow) -> Shallow
        ensures { IsBestBetween (choice_at self.now) 0 (steps_of self.now) earlier.candidate
            result.candidate }
    {
        let length = STRETCH * BLOCK;
        let first = self.all.relevant / length + 1;
        let last = (self.all.relevant + self.steps()) / length;
        let mut best = earlier;
        for stretch in first..last + 1 {
            best = preferred(self.choice_at_block(stretch * STRETCH), best);
        }
        best
    }

    /// The end of the part of some depths that begins beyond one, where each part but the last ends at
    /// a multiple of a length.
    fn next_end(&self, chosen: u32, length: u32, end: u32) -> u32
        requires some { 0 < length }
        requires few { length ≤ 50 }
        requires order { chosen < end }
        requires high { end ≤ steps_of self.now }
        ensures later { chosen < result }
        ensures within { result ≤ end }
    {
        let relevant = self.all.relevant;
        let last = ((relevant + chosen) / length + 1) * length;
        end.min(last - relevant)
    }

    /// Whether some greedy choice at these depths may precede a candidate. None does where the
    /// candidate has a smaller difference than what bounds them all: the relevant documents that the
    /// first run has at the start, and for the second run all that it has at the end, less what both
    /// share at the start. At each depth before the one where it may have so many, it has one fewer.
    fn may_precede(&self, chosen: u32, next: u32, best: Shallow) -> bool
        requires order { chosen < next }
        requires high { next ≤ steps_of self.now }
        ensures { result ≡ false → (place : ℕ) → chosen ≤ place → place < next →
            precedes (choice_at self.now place) best.candidate ≡ false }
    {
        let relevant = self.all.relevant;
        let start = (relevant + chosen) / BLOCK;
        let end = (relevant + next - 1) / BLOCK + 1;
        let both = self.both[start as usize];
        let first = counts_in(self.first.numbers[start as usize]).relevant;
        let begun = counts_in(self.second.numbers[start as usize] - both);
        let ended = counts_in(self.second.numbers[end as usize] - both);
        let most = ended.unjudged.min(next);
        let lack = relevant.max(start * BLOCK - begun.unjudged);
        let second = ended.relevant + most;
        let count = relevant + next;
        let high = Shallow {
            candidate: DepthCandidate {
                count,
                first,
                second,
            },
        };
        let low = Shallow {
            candidate: DepthCandidate {
                count: count.min(most + lack),
                first,
                second,
            },
        };
        !(is_less(best, low) && is_less(best, high))
    }

    /// The greedy choice at a depth, from the counts there.
    pub fn choice_from(&self, prefixes: Prefixes, place: u32) -> Shallow
        requires place { place < steps_of self.now }
        requires prefixes { prefixes ≡ counts_at self.now (self.now.all.relevant + (place + 1)) }
        ensures { result.candidate ≡ choice_at self.now place }
    {
        let small = greedy_choice(prefixes, place + 1, self.all);
        Shallow {
            candidate: small.candidate,
        }
    }

    /// The best of the greedy choices at some depths and an earlier candidate, one by one.
    fn best_in(&self, chosen: u32, next: u32, earlier: Shallow) -> Shallow
        requires order { chosen < next }
        requires high { next ≤ steps_of self.now }
        ensures { IsBestOf (choice_at self.now) chosen next earlier.candidate
            result.candidate }
    {
        let mut packed = self.packed_at(self.all.relevant + chosen);
        let mut best = earlier;
        for place in chosen..next {
            packed = self.deeper(packed, self.all.relevant + place);
            best = preferred(self.choice_from(packed.unpacked(), place), best);
        }
        best
    }

    /// The same at the depths of a block.
    fn best_in_block(&self, chosen: u32, next: u32, earlier: Shallow) -> Shallow
        requires order { chosen < next }
        requires high { next ≤ steps_of self.now }
        ensures { IsBestOf (choice_at self.now) chosen next earlier.candidate
            result.candidate }
    {
        if self.may_precede(chosen, next, earlier) {
            self.best_in(chosen, next, earlier)
        } else {
            earlier
        }
    }

    /// The same at the depths of some blocks.
    fn best_in_blocks(&self, start: u32, end: u32, earlier: Shallow) -> Shallow
        requires order { start < end }
        requires high { end ≤ steps_of self.now }
        ensures { IsBestOf (choice_at self.now) start end earlier.candidate
            result.candidate }
    {
        let mut best = earlier;
        let mut chosen = start;
        while chosen < end {
            let next = self.next_end(chosen, BLOCK, end);
            best = self.best_in_block(chosen, next, best);
            chosen = next;
        }
        best
    }

    /// The same at the depths of a stretch.
    fn best_in_stretch(&self, start: u32, end: u32, earlier: Shallow) -> Shallow
        requires order { start < end }
        requires high { end ≤ steps_of self.now }
        ensures { IsBestOf (choice_at self.now) start end earlier.candidate
            result.candidate }
    {
        if self.may_precede(start, end, earlier) {
            self.best_in_blocks(start, end, earlier)
        } else {
            earlier
        }
    }

    /// The same at all depths.
    fn best_in_stretches(&self, earlier: Shallow) -> Shallow
        ensures { IsBestOf (choice_at self.now) 0 (steps_of self.now) earlier.candidate
            result.candidate }
    {
        let steps = self.steps();
        let mut best = earlier;
        let mut chosen = 0;
        while chosen < steps {
            let next = self.next_end(chosen, STRETCH * BLOCK, steps);
            best = self.best_in_stretch(chosen, next, best);
            chosen = next;
        }
        best
    }

    /// The best of the greedy choices at all depths and the one at the number of documents judged
    /// relevant: the one with the least difference, and of these the one with the smallest number of
    /// relevant documents.
    pub fn best(&self, judged: Small) -> Small
        requires { judged.candidate.count ≡ self.now.all.relevant }
        ensures { IsBestOf (choice_at self.now) 0 (steps_of self.now) judged.candidate
            result.candidate }
    {
        if self.steps() == 0 {
            return judged;
        }
        let earlier = Shallow {
            candidate: judged.candidate,
        };
        let best = self.best_in_stretches(self.guess(earlier));
        Small {
            candidate: best.candidate,
        }
    }
}
