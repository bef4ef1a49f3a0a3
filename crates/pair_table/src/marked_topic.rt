// A topic of a desk under marks.
ghost use Rattle.std.specs.Prelude.{◌≡◌, ◌<◌, length, slice_get, Some};
ghost use Rattle.desk_model.specs.Desk.{IsDesk, AreMarksOf, ranking_of};
ghost use Rattle.desk_model.specs.Named.{book_at};
ghost use Rattle.measure_core.specs.Pairs.{AreAllMet};
ghost use Rattle.pair_table.specs.TopicUnder.{place_of, topic_of};

use desk_model::{Desk, Mark, Ranking, Rows, TopicBook};
use measure_core::TopicRankings;
use std::marker::Model;

/// A topic of a desk under marks, by its number from 0. There is a mark for each document of the desk, and the desk has
/// the topic.
#[derive(Drop)]
pub struct MarkedTopic<'a> {
    desk: &'a Desk,
    marks: &'a Rows,
    number: u32,
}

impl<'a> Model for MarkedTopic<'a> {
    ghost use Rattle.pair_table.specs.TopicUnder.{TopicUnder, IsKnownTopic};

    ghost Value = { TopicUnder };

    ghost view = { λ t. record { desk = t.desk.now; marks = t.marks.now; number = t.number } };

    ghost invariant = { λ t. IsKnownTopic (record { desk = t.desk.now; marks = t.marks.now; number = t.number }) };
}

impl<'a> MarkedTopic<'a> {
    /// The topic of this number.
    pub fn of(desk: &'a Desk, marks: &'a Rows, number: u32) -> MarkedTopic<'a>
        requires marked { AreMarksOf desk.now marks.now }
        requires known { number < length desk.now.topics }
        ensures { result ≡ record { desk = desk.now; marks = marks.now; number = number } }
    {
        MarkedTopic {
            desk,
            marks,
            number,
        }
    }

    /// Its number.
    pub fn number(&self) -> u32
        ensures number { result ≡ self.now.number }
        ensures known { result < length self.now.desk.topics }
        ensures desk { IsDesk self.now.desk }
    {
        let desk = self.desk;
        desk.valid();
        self.number
    }

    /// How many runs the desk has.
    pub fn runs(&self) -> u32
        ensures { result ≡ length self.now.desk.runs }
    {
        let desk = self.desk;
        desk.run_count()
    }

    /// The documents and grades of the topic.
    pub fn book(&self) -> &'a TopicBook
        ensures { slice_get self.now.desk.topics self.now.number ≡ Some result.now }
    {
        let desk = self.desk;
        desk.topic(self.number)
    }

    /// The marks of its documents, by their numbers.
    pub fn marks(&self) -> &'a [Mark]
        ensures marks { result.now ≡ (topic_of self.now).marks }
        ensures count { length result.now ≡
            length (book_at self.now.desk self.now.number).docs }
        ensures met { AreAllMet result.now (place_of self.now) }
    {
        let desk = self.desk;
        desk.valid();
        let marks = self.marks;
        marks.topic(self.number)
    }

    /// The ranking of a run on it.
    pub fn ranking(&self, run: u32) -> &'a Ranking
        requires { run < length self.now.desk.runs }
        ensures { result.now ≡ ranking_of self.now.desk run self.now.number }
    {
        let desk = self.desk;
        desk.ranking(run, self.number)
    }

    /// The rankings of all runs on it.
    pub fn rankings(&self) -> TopicRankings<'a>
        ensures { result ≡ place_of self.now }
    {
        TopicRankings::new(self.desk, self.number)
    }
}
