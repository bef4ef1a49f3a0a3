ghost use Rattle.std.specs.Prelude.{◌≡◌, ◌+◌, ◌≤◌};
ghost use Rattle.rprec.specs.Search.{IsBestOf};
ghost use Rattle.rprec.specs.Sums.{choice_at, steps_of, swapped_pair};

use crate::greedy::Small;
use crate::pair::RunPair;
use crate::search::{Shallow, preferred};

/// How many depths are looked at one by one, without a look at whether they can be left out.
const FEW_STEPS: u32 = 20;

/// The best greedy choice of two runs, and that of the swapped runs.
#[derive(Clone, Copy)]
pub struct BothBest {
    pub least: Small,
    pub most: Small,
}

/// The same, of no more documents than a run has.
#[derive(Clone, Copy)]
struct BothShallow {
    least: Shallow,
    most: Shallow,
}

impl<'p> RunPair<'p> {
    /// The best of the greedy choices at all depths and an earlier candidate, one by one, and the same of the swapped
    /// runs.
    fn best_of_both(&self, earlier: BothShallow) -> BothShallow
        requires { self.now.all.relevant ≤ self.now.longest }
        ensures least { IsBestOf (choice_at self.now) 0 (steps_of self.now)
            earlier.least.candidate result.least.candidate }
        ensures most { IsBestOf (choice_at (swapped_pair self.now)) 0 (steps_of self.now)
            earlier.most.candidate result.most.candidate }
    {
        let swapped = self.swapped();
        let relevant = self.all.relevant;
        let mut packed = self.packed_at(relevant);
        let mut least = earlier.least;
        let mut most = earlier.most;
        for place in 0..self.steps() {
            packed = self.deeper(packed, relevant + place);
            let prefixes = packed.unpacked();
            least = preferred(self.choice_from(prefixes, place), least);
            most = preferred(swapped.choice_from(prefixes.swapped(), place), most);
        }
        BothShallow { least, most }
    }

    /// The best of the greedy choices at all depths and the one at the number of documents judged relevant, and the same
    /// of the swapped runs: each the one with the least difference, and of these the one with the smallest number of
    /// relevant documents.
    pub fn both_best(&self, judged: BothBest) -> BothBest
        requires least { judged.least.candidate.count ≡ self.now.all.relevant }
        requires most { judged.most.candidate.count ≡ self.now.all.relevant }
        ensures least { IsBestOf (choice_at self.now) 0 (steps_of self.now)
            judged.least.candidate result.least.candidate }
        ensures most { IsBestOf (choice_at (swapped_pair self.now)) 0 (steps_of self.now)
            judged.most.candidate result.most.candidate }
    {
        let steps = self.steps();
        if steps == 0 {
            return judged;
        }
        if steps > FEW_STEPS {
            return BothBest {
                least: self.best(judged.least),
                most: self.swapped().best(judged.most),
            };
        }
        let best = self.best_of_both(BothShallow {
            least: Shallow {
                candidate: judged.least.candidate,
            },
            most: Shallow {
                candidate: judged.most.candidate,
            },
        });
        BothBest {
            least: Small {
                candidate: best.least.candidate,
            },
            most: Small {
                candidate: best.most.candidate,
            },
        }
    }
}
