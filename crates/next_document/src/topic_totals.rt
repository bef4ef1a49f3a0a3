// The totals of the documents of a topic, pair by pair.
ghost use Rattle.std.specs.Prelude.{◌≡◌, length, map, slice_index, EachIndex, IfOk};
ghost use Rattle.measure_core.specs.Shifts.{HaveRoom, AreShifted};
ghost use Rattle.next_document.specs.Kept.{AreTopicTotals, AreTotalsOf, AreNumbered};
ghost use Rattle.next_document.specs.Moved.{weights_of};

use crate::standing::{PairStanding, Standing, TopicStanding};
use crate::total::is_unsettled;
use desk_model::{Memory, PairPlaces};
use measure_core::{Measure, Shift};
use std::alloc::Global;

impl<'a, M: Measure> PairStanding<'a, M> {
    ghost use Rattle.next_document.specs.Shown.{shown_at, marks_at};

    /// Adds the weights of the topic's documents in the pair to their totals, or takes them back.
    pub fn shift_totals(&self, shift: Shift, totals: &mut [u128])
        requires count { length totals.old ≡ length (marks_at self.now.topic) }
        requires room { HaveRoom shift
            (weights_of (shown_at M.measured self.now.topic) self.now.pair self.now.topic.number)
            totals.old }
        ensures { AreShifted shift
            (weights_of (shown_at M.measured self.now.topic) self.now.pair self.now.topic.number)
            totals.old totals.new }
    {
        let standing = self.topic.standing;
        let topic = self.topic.number;
        standing.on.desk.valid();
        let a = standing.on.desk.ranking(self.pair.first, topic);
        let b = standing.on.desk.ranking(self.pair.second, topic);
        standing
            .measure
            .shift_weights(a, b, standing.on.marks.topic(topic), shift, totals);
    }
}

/// Sets each total to 0.
fn clear(totals: &mut [u128])
    ensures { EachIndex totals.new (λ doc. slice_index totals.new doc ≡ 0) }
{
    for total in totals.iter_mut() {
        *total = 0;
    }
}

impl<'a, M: Measure> TopicStanding<'a, M> {
    ghost use Rattle.next_document.specs.Shown.{shown_at, marks_at};

    /// Makes the totals of a topic anew, by the pairs whose verdict counts. What they were before does not matter.
    pub fn sum_topic(&self, totals: &mut [u128])
        requires count { length totals.old ≡ length (marks_at self.now) }
        ensures { AreTopicTotals (shown_at M.measured self.now) self.now.number totals.new }
    {
        // The name of a measure can be made.
        let _name = self.standing.measure.name();
        clear(totals);
        let runs = self.standing.on.desk.run_count();
        let mut pair = PairPlaces::START;
        for verdict in self.standing.verdicts {
            if is_unsettled(*verdict) {
                let here = PairStanding { topic: *self, pair };
                here.shift_totals(Shift::Add, totals);
            }
            pair = pair.next(runs);
        }
    }

    /// The totals of a topic.
    fn topic_totals(&self, alloc: Global) -> Result<Vec<u128>, Memory>
        ensures count { IfOk result (λ totals. length totals.items ≡ length (marks_at self.now)) }
        ensures totals { IfOk result (λ totals.
            AreTopicTotals (shown_at M.measured self.now) self.now.number totals.items) }
    {
        let mut totals = vec![in alloc; 0u128; self.standing.on.marks.topic(self.number).len()]?;
        self.sum_topic(&mut totals);
        Ok(totals)
    }
}

impl<'a, M: Measure> Standing<'a, M> {
    ghost use Rattle.next_document.specs.Shown.{shown};

    /// The totals of all topics.
    pub fn all_totals(&self, alloc: Global) -> Result<Vec<Vec<u128>>, Memory>
        ensures totals { IfOk result (λ all.
            AreTotalsOf (shown M.measured self.now) (map (λ each. each.items) all.items)) }
        ensures numbered { IfOk result (λ all. AreNumbered (map (λ each. each.items) all.items)) }
    {
        let mut all = Vec::new(alloc);
        for topic in 0..self.on.desk.topic_count() {
            let here = TopicStanding {
                standing: *self,
                number: topic,
            };
            let totals = here.topic_totals(alloc)?;
            all.push(totals)?;
        }
        Ok(all)
    }
}
