ghost use Rattle.std.specs.Prelude.{◌≡◌, ◌+◌, ◌≤◌, length};
ghost use Rattle.rprec.specs.Greedy.{IsLeast, candidate};
ghost use Rattle.rprec.specs.Picks.{AreWanted, IsLeastCase};
ghost use Rattle.rprec.specs.Search.{IsBestOf};
ghost use Rattle.rprec.specs.Sums.{choice_at, prefixes, steps_of};

use crate::both::BothBest;
use crate::greedy::{Small, best_beyond, greedy_choice};
use crate::pair::RunPair;
use crate::prefixes::Prefixes;
use crate::room::PairFinding;
use crate::values::{LeastCase, Wanted, wanted_of};

/// The least candidate of two runs, and that of the swapped runs, whose difference is the greatest
/// one negated.
#[derive(Clone, Copy)]
pub struct Extremes {
    pub least: Small,
    pub most: Small,
}

/// The least case of two runs, and that of the swapped runs.
#[derive(Clone, Copy, PartialEq, Eq)]
pub struct Cases {
    pub least: LeastCase,
    pub most: LeastCase,
}

impl<'p> RunPair<'p> {
    /// The least candidate of the first run against the second, from the best of the greedy choices up to the last depth
    /// to look at, and the counts there.
    fn least_from(&self, end: Prefixes, best: Small) -> Small
        requires end { end ≡ prefixes self.now (self.now.all.relevant + steps_of self.now) }
        requires best { IsBestOf (choice_at self.now) 0 (steps_of self.now)
            (candidate (prefixes self.now self.now.all.relevant) self.now.all 0) best.candidate }
        ensures { IsLeast self.now.marks.now self.now.a.now self.now.b.now result.candidate }
    {
        best_beyond(end, self.steps(), self.all, best)
    }

    /// The least candidate of the first run against the second, from the counts at the number of
    /// documents judged relevant and at the last depth to look at.
    fn least(&self, start: Prefixes, end: Prefixes) -> Small
        requires start { start ≡ prefixes self.now self.now.all.relevant }
        requires end { end ≡ prefixes self.now (self.now.all.relevant + steps_of self.now) }
        ensures { IsLeast self.now.marks.now self.now.a.now self.now.b.now result.candidate }
    {
        let judged = greedy_choice(start, 0, self.all);
        self.least_from(end, self.best(judged))
    }

    /// The greedy choice where the topic is to have so many relevant documents.
    fn wanted_at(&self, count: u32) -> Wanted
        ensures { AreWanted self.now.marks.now self.now.a.now self.now.b.now count result }
    {
        let prefixes = self.prefixes_at(count);
        let chosen = count.saturating_sub(self.all.relevant);
        let first = prefixes.first.unjudged;
        let second = prefixes.second.unjudged;
        wanted_of(chosen, first, second, self.all.unjudged)
    }

    /// The least case of the first run against the second, from the same counts as the least candidate.
    fn least_case(&self, start: Prefixes, end: Prefixes) -> LeastCase
        requires start { start ≡ prefixes self.now self.now.all.relevant }
        requires end { end ≡ prefixes self.now (self.now.all.relevant + steps_of self.now) }
        ensures { IsLeastCase self.now.marks.now self.now.a.now self.now.b.now result }
    {
        let least = self.least(start, end).candidate;
        LeastCase {
            count: least.count,
            wanted: self.wanted_at(least.count),
        }
    }

    /// The least case of the first run against the second.
    fn least_of_all(&self) -> LeastCase
        ensures { IsLeastCase self.now.marks.now self.now.a.now self.now.b.now result }
    {
        let start = self.prefixes_at(self.all.relevant);
        let end = self.prefixes_at(self.all.relevant + self.steps());
        self.least_case(start, end)
    }

    /// The least cases of both, and of the swapped runs.
    fn cases(&self) -> Cases
        ensures least { IsLeastCase self.now.marks.now self.now.a.now self.now.b.now result.least }
        ensures most { IsLeastCase self.now.marks.now self.now.b.now self.now.a.now result.most }
    {
        let start = self.prefixes_at(self.all.relevant);
        let end = self.prefixes_at(self.all.relevant + self.steps());
        let swapped = self.swapped();
        Cases {
            least: self.least_case(start, end),
            most: swapped.least_case(start.swapped(), end.swapped()),
        }
    }

    /// The least candidates of both, and of the swapped runs.
    fn extremes(&self) -> Extremes
        ensures least { IsLeast self.now.marks.now self.now.a.now self.now.b.now
            result.least.candidate }
        ensures most { IsLeast self.now.marks.now self.now.b.now self.now.a.now
            result.most.candidate }
    {
        let start = self.prefixes_at(self.all.relevant);
        let end = self.prefixes_at(self.all.relevant + self.steps());
        let best = self.both_best(BothBest {
            least: greedy_choice(start, 0, self.all),
            most: greedy_choice(start.swapped(), 0, self.all),
        });
        Extremes {
            least: self.least_from(end, best.least),
            most: self.swapped().least_from(end.swapped(), best.most),
        }
    }
}

/// The least candidate, and that of the swapped runs.
impl PairFinding for Extremes {
    ghost use Rattle.rprec.specs.Found.{AreLeastChoices};

    ghost is_of = { AreLeastChoices };

    fn find(pair: &RunPair) -> Extremes {
        pair.extremes()
    }
}

/// The least case: the completion with the least difference of all, and of these one with the smallest number of
/// relevant documents. No number of relevant documents is left out.
impl PairFinding for LeastCase {
    ghost use Rattle.rprec.specs.Picks.{IsLeastCase};

    ghost is_of = { λ case marks a b. IsLeastCase marks a b case };

    fn find(pair: &RunPair) -> LeastCase {
        pair.least_of_all()
    }
}

/// The least case, and that of the swapped runs.
impl PairFinding for Cases {
    ghost use Rattle.rprec.specs.Found.{AreLeastCases};

    ghost is_of = { AreLeastCases };

    fn find(pair: &RunPair) -> Cases {
        pair.cases()
    }
}
