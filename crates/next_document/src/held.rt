// The verdicts that totals stand for, changed one by one.
ghost use Rattle.std.specs.Prelude.{◌≡◌, ℕ, length, map, MatchOption};
ghost use Rattle.desk_model.specs.Pairs.{pairs_of};
ghost use Rattle.measure_core.specs.Shifts.{IsShifted};
ghost use Rattle.next_document.specs.Total.{holding};
ghost use Rattle.next_document.specs.Kept.{AreTotalsOf};
ghost use Rattle.next_document.specs.Moved.{counted, HaveRoomOnAll, AreShiftedOnAll, HaveCountedOnAll, AreMovedOnAll};

use crate::standing::{DeskPairStanding, PairStanding, Standing, TopicStanding};
use crate::total::is_unsettled;
use desk_model::{PairPlaces, Verdict};
use measure_core::{Measure, Shift};

/// What is done with the weights of a pair whose verdict changes: nothing where both count or neither does.
fn shift_between(before: Verdict, after: Verdict) -> Option<Shift>
    ensures { MatchOption result ((weight : ℕ) → counted before weight ≡ counted after weight)
        (λ shift. (weight : ℕ) →
        IsShifted shift weight (counted before weight) (counted after weight)) }
{
    match (is_unsettled(before), is_unsettled(after)) {
        (false, true) => Some(Shift::Add),
        (true, false) => Some(Shift::TakeBack),
        (true, true) | (false, false) => None,
    }
}

impl<'a, M: Measure> DeskPairStanding<'a, M> {
    ghost use Rattle.next_document.specs.Shown.{shown};

    /// Adds the weights of the pair to the totals of all topics, or takes them back.
    fn shift_all(&self, shift: Shift, totals: &mut [Vec<u128>])
        requires room { HaveRoomOnAll shift (shown M.measured self.now.standing) self.now.pair
            (map (λ each. each.items) totals.old) }
        ensures { AreShiftedOnAll shift (shown M.measured self.now.standing) self.now.pair
            (map (λ each. each.items) totals.old) (map (λ each. each.items) totals.new) }
    {
        for topic in 0..self.standing.on.desk.topic_count() {
            let totals = &mut totals[topic as usize];
            let here = PairStanding {
                topic: TopicStanding {
                    standing: self.standing,
                    number: topic,
                },
                pair: self.pair,
            };
            here.shift_totals(shift, totals);
        }
    }

    /// Moves the totals of all topics, where the pair's verdict changes.
    fn move_all(&self, before: Verdict, after: Verdict, totals: &mut [Vec<u128>])
        requires counted { HaveCountedOnAll before (shown M.measured self.now.standing)
            self.now.pair (map (λ each. each.items) totals.old) }
        ensures { AreMovedOnAll before after (shown M.measured self.now.standing) self.now.pair
            (map (λ each. each.items) totals.old) (map (λ each. each.items) totals.new) }
    {
        if let Some(shift) = shift_between(before, after) {
            self.shift_all(shift, totals);
        }
    }
}

impl<'a, M: Measure> Standing<'a, M> {
    ghost use Rattle.next_document.specs.Shown.{shown};

    /// Holds other verdicts, and renews all totals for them.
    pub fn hold_verdicts(&self, held: &mut [Verdict], totals: &mut [Vec<u128>])
        requires held { length held.old ≡ length (pairs_of self.now.on.desk.now.runs) }
        requires totals { AreTotalsOf (holding held.old (shown M.measured self.now))
            (map (λ each. each.items) totals.old) }
        ensures totals { AreTotalsOf (shown M.measured self.now)
            (map (λ each. each.items) totals.new) }
        ensures held { held.new ≡ self.now.verdicts.now }
    {
        // The name of a measure can be made.
        let _name = self.measure.name();
        let runs = self.on.desk.run_count();
        let mut pair = PairPlaces::START;
        for (number, verdict) in self.verdicts.iter().enumerate() {
            let here = DeskPairStanding {
                standing: *self,
                pair,
            };
            here.move_all(held[number], *verdict, totals);
            held[number] = *verdict;
            pair = pair.next(runs);
        }
    }
}
