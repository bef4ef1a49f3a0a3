// Two runs of a desk on its topics.
ghost use Rattle.std.specs.Prelude.{◌≡◌, ◌↔◌, ◌<◌, ◌∷◌, [], length, slice_get, IsTrue, Some};
ghost use Rattle.desk_model.specs.Mark.{is_unjudged};
ghost use Rattle.desk_model.specs.Name.{AreAscending, number_of};
ghost use Rattle.measure_laws.specs.Ends.{IsUpperEnd, IsLowerEnd};
ghost use Rattle.measure_laws.specs.Shares.{IsModest};
ghost use Rattle.order_certificate.specs.Evidence.{AreUnjudged, listed_truth};
ghost use Rattle.order_verifier.specs.Checks.{IsComparison as IsOne, OfTopic};
ghost use Rattle.order_verifier.specs.Refusal.{OfEnds, topics_in};
ghost use Rattle.order_verifier.specs.Rows.{OfRow};
ghost use Rattle.topic_ends.specs.RunBounds.{AreBoundsOf as BoundsOf};

use crate::completion::CompletionEnds;
use crate::documents::Documents;
use crate::listed::Listed;
use crate::names::RunNumbers;
use crate::search::Near;
use desk_model::{Desk, Mark, Placed, TopicBook};
use order_certificate::WitnessList;
use std::marker::Model;
use topic_ends::ranked::known_ranking;
use topic_ends::{BoundsOnTopic, DeskMarks, TopicEnds};

/// Two runs of a desk under its marks, what their ends are computed by, and bounds of runs where they are known.
#[derive(Drop)]
pub struct Comparison<'a> {
    ends: &'a TopicEnds,
    desk: &'a Desk,
    marks: &'a DeskMarks<'a>,
    runs: RunNumbers,
    bounds: &'a [BoundsOnTopic],
}

impl<'a> Model for Comparison<'a> {
    ghost use Rattle.order_verifier.specs.Checks.{IsComparison};
    ghost use Rattle.order_verifier.specs.Refusal.{Compared};
    ghost use Rattle.topic_ends.specs.RunBounds.{AreBoundsOf};

    ghost Value = { Compared };

    ghost view = { λ c. record { measure = c.ends.now; desk = c.desk.now; marks = c.marks.now; first = c.runs.first; second = c.runs.second } };

    ghost invariant = { λ c. IsComparison c.desk.now c.marks.now c.runs.first c.runs.second × AreBoundsOf c.desk.now c.marks.now c.bounds.now };
}

/// The outer ends of the differences of two runs on a topic.
#[derive(Clone, Copy)]
pub struct OuterEnds {
    /// The lower end of the least difference.
    pub least_low: i128,
    /// The upper end of the greatest.
    pub most_high: i128,
}

/// Whether an unjudged document is found.
#[derive(Clone, Copy)]
pub struct FoundUnjudged {
    pub is_found: bool,
    /// Its number, where it is found.
    pub doc: u32,
}

/// Whether a mark leaves the document unjudged.
fn is_open(mark: Mark) -> bool
    ensures { result ≡ is_unjudged mark }
{
    matches!(mark, Mark::Unjudged)
}

impl<'a> Comparison<'a> {
    /// Two runs of a desk by their numbers, under its marks, with the bounds of its runs on the first topics.
    pub fn new(
        ends: &'a TopicEnds,
        desk: &'a Desk,
        marks: &'a DeskMarks<'a>,
        runs: RunNumbers,
        bounds: &'a [BoundsOnTopic],
    ) -> Comparison<'a>
        requires runs { IsOne desk.now marks.now runs.first runs.second }
        requires bounds { BoundsOf desk.now marks.now bounds.now }
        ensures { result ≡
            record {
              measure = ends.now;
              desk = desk.now;
              marks = marks.now;
              first = runs.first;
              second = runs.second;
            } }
    {
        Comparison {
            ends,
            desk,
            marks,
            runs,
            bounds,
        }
    }

    /// A topic of the desk.
    pub fn topic_book(&self, topic: u32) -> &TopicBook
        requires { topic < length (topics_in self.now) }
        ensures book { slice_get self.now.desk.topics topic ≡ Some result.now }
        ensures docs { OfTopic (topics_in self.now) topic (λ t. result.now.docs ≡ t.docs) }
        ensures ascending { AreAscending result.now.docs }
    {
        self.desk.topic(topic)
    }

    /// The lower end of the least difference of the two runs on a topic.
    pub fn least_low(&self, topic: u32) -> i128
        requires { topic < length (topics_in self.now) }
        ensures { OfTopic (topics_in self.now) topic (λ t.
            OfEnds self.now t (λ ends. result ≡ ends.least_lo)) }
    {
        let first = known_ranking(self.desk, self.bounds, self.runs.first, topic);
        let second = known_ranking(self.desk, self.bounds, self.runs.second, topic);
        let marks = self.marks.topic(topic);
        self.ends.least_low_of(&first, &second, &marks)
    }

    /// The outer ends of the differences of the two runs on a topic.
    pub fn outer_ends(&self, topic: u32) -> OuterEnds
        requires { topic < length (topics_in self.now) }
        ensures { OfTopic (topics_in self.now) topic (λ t.
            OfEnds self.now t (λ ends. result ≡
            record { least_low = ends.least_lo; most_high = ends.most_hi })) }
    {
        let first = known_ranking(self.desk, self.bounds, self.runs.first, topic);
        let second = known_ranking(self.desk, self.bounds, self.runs.second, topic);
        let marks = self.marks.topic(topic);
        OuterEnds {
            least_low: self.ends.least_low_of(&first, &second, &marks),
            most_high: -self.ends.least_low_of(&second, &first, &marks),
        }
    }

    /// The marks of the documents of a topic.
    pub fn topic_marks(&self, topic: u32) -> &[Mark]
        requires { topic < length (topics_in self.now) }
        ensures { slice_get self.now.marks topic ≡ Some result.now }
    {
        self.marks.of_topic(topic)
    }

    /// The documents that the run ranks of which a list of a topic is likely to name most: the second one in the low
    /// completion, and the first one in the high one.
    pub fn likely(&self, topic: u32, list: WitnessList) -> &[Placed]
        requires { topic < length (topics_in self.now) }
    {
        let run = match list {
            WitnessList::Low => self.runs.second,
            WitnessList::High => self.runs.first,
        };
        self.desk.ranking(run, topic).by_doc()
    }

    /// Whether a list names an unjudged document of a topic with these marks at a place. It is looked for first at a
    /// number and among ranked documents, which changes nothing but how soon it is found.
    #[inline(always)]
    pub fn find_unjudged(
        &self,
        topic: u32,
        marks: &[Mark],
        documents: &Documents<'_>,
        place: u32,
        ranked: &[Placed],
        near: &mut Near,
    ) -> FoundUnjudged
        requires place { place < length documents.now.names }
        requires marks { slice_get self.now.marks topic ≡ Some marks.now }
        requires topic { OfTopic (topics_in self.now) topic (λ t. documents.now.docs ≡ t.docs) }
        ensures { OfRow documents.now.names place (λ name.
            (IsTrue result.is_found → number_of documents.now.docs name ≡ Some result.doc) ×
            OfTopic (topics_in self.now) topic (λ t. IsTrue result.is_found ↔
            AreUnjudged t (name ∷ []))) }
    {
        let _desk = self.desk;
        match documents.number(place, ranked, near) {
            Some(doc) => FoundUnjudged {
                is_found: is_open(marks[doc as usize]),
                doc,
            },
            None => FoundUnjudged {
                is_found: false,
                doc: 0,
            },
        }
    }

    /// The ends of the differences on a topic in the completions that two lists stand for: the upper end in that of the
    /// low list, and the lower end in that of the high one.
    pub fn completion_ends(
        &self,
        topic: u32,
        low: &Documents<'_>,
        high: &Documents<'_>,
    ) -> CompletionEnds
        requires low_ascends { AreAscending low.now.names }
        requires high_ascends { AreAscending high.now.names }
        requires low_topic { OfTopic (topics_in self.now) topic (λ t. (low.now.docs ≡ t.docs) ×
            AreUnjudged t low.now.names) }
        requires high_topic { OfTopic (topics_in self.now) topic (λ t. (high.now.docs ≡ t.docs) ×
            AreUnjudged t high.now.names) }
        ensures low { OfTopic (topics_in self.now) topic (λ t.
            IsUpperEnd self.now.measure (length t.topic.marks) (listed_truth t low.now.names)
            (t.topic.ranking self.now.first) (t.topic.ranking self.now.second) result.low) }
        ensures high { OfTopic (topics_in self.now) topic (λ t.
            IsLowerEnd self.now.measure (length t.topic.marks) (listed_truth t high.now.names)
            (t.topic.ranking self.now.first) (t.topic.ranking self.now.second) result.high) }
        ensures low_modest { IsModest result.low }
        ensures high_modest { IsModest result.high }
    {
        let first = self.desk.ranking(self.runs.first, topic);
        let second = self.desk.ranking(self.runs.second, topic);
        let marks = self.marks.topic(topic);
        let low = Listed::new(&marks, low);
        let high = Listed::new(&marks, high);
        let ends = self.ends.upper_ends(first, second, &low, &high);
        CompletionEnds {
            low: ends.low,
            high: -ends.high,
        }
    }
}
