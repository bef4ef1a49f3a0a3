// The best of the documents so far, topic by topic.
ghost use Rattle.std.specs.Prelude.{◌≡◌, ◌+◌, ◌<◌, ◌≤◌, Some};
ghost use Rattle.next_document.specs.Best.{IsBestBefore, weight_to_beat};

use crate::proposal::Proposal;
use crate::standing::{DocumentStanding, TopicStanding};
use desk_model::Mark;
use measure_core::Measure;

/// The greatest total so far: 0 where there is none.
fn weight_to_beat(best: Option<Proposal>) -> u128
    ensures { result ≡ weight_to_beat best }
{
    match best {
        Some(proposal) => proposal.weight,
        None => 0,
    }
}

/// The better of the best so far and another document: only a greater total replaces it.
pub fn better(best: Option<Proposal>, other: Proposal) -> Option<Proposal>
    ensures kept { other.weight ≤ weight_to_beat best → result ≡ best }
    ensures replaced { weight_to_beat best < other.weight → result ≡ Some other }
{
    if other.weight > weight_to_beat(best) {
        Some(other)
    } else {
        best
    }
}

impl<'a, M: Measure> DocumentStanding<'a, M> {
    ghost use Rattle.next_document.specs.Shown.{shown_at};

    /// The best of the documents up to this one, from the best of those before it.
    fn best_with(&self, best: Option<Proposal>) -> Option<Proposal>
        requires best { IsBestBefore (shown_at M.measured self.now.topic) self.now.topic.number
            self.now.number best }
        ensures { IsBestBefore (shown_at M.measured self.now.topic) self.now.topic.number
            (self.now.number + 1) result }
    {
        let topic = self.topic.number;
        let doc = self.number;
        match self.topic.standing.on.marks.topic(topic)[doc as usize] {
            Mark::Unjudged => {
                let weight = self.total();
                better(best, Proposal { topic, doc, weight })
            }
            Mark::Relevant | Mark::Other => best,
        }
    }
}

impl<'a, M: Measure> TopicStanding<'a, M> {
    ghost use Rattle.next_document.specs.Shown.{shown_at};

    /// The best of the documents up to the last one of a topic, from the best of the topics before it.
    pub fn best_with_topic(&self, earlier: Option<Proposal>) -> Option<Proposal>
        requires earlier { IsBestBefore (shown_at M.measured self.now) self.now.number 0 earlier }
        ensures { IsBestBefore (shown_at M.measured self.now) (self.now.number + 1) 0 result }
    {
        let mut best = earlier;
        for doc in 0..self.standing.on.desk.topic(self.number).doc_count() {
            let document = DocumentStanding {
                topic: *self,
                number: doc,
            };
            best = document.best_with(best);
        }
        best
    }
}
