// How the runs of a desk stand at a time: as a whole or with one pair of them, and on one topic, there also for one
// document or with one pair of runs. Each type carries what is known of its fields, so that a function over it asks no
// such thing of its callers.
ghost use Rattle.std.specs.Prelude.{◌≡◌, ◌<◌, [], length, slice_index_or, ⊤};
ghost use Rattle.next_document.specs.Marked.{AreMarksOf-prop};
ghost use Rattle.desk_model.specs.Desk.{AreMarksOf};
ghost use Rattle.desk_model.specs.Pairs.{pairs_of};

use desk_model::{Desk, PairPlaces, Rows, Verdict};
use std::alloc::AllocError;

/// A desk and marks of its documents. Its fact: there is a mark for each document of each topic, and no other.
#[derive(Clone, Copy)]
pub struct MarkedDesk<'a> {
    pub desk: &'a Desk,
    pub marks: &'a Rows,
    pub ghost marked: { AreMarksOf desk.now marks.now } by { AreMarksOf-prop desk.now marks.now },
}

/// How runs stand: a measure, a desk with its marks, and verdicts. Its fact: there is a verdict for each pair of runs,
/// in the order of a table.
pub struct Standing<'a, M> {
    pub measure: &'a M,
    pub on: MarkedDesk<'a>,
    pub verdicts: &'a [Verdict],
    pub ghost each: { length verdicts.now ≡ length (pairs_of on.desk.now.runs) },
}

impl<'a, M> Clone for Standing<'a, M> {
    ghost is_clone = { λ x y. y ≡ x };

    ghost is_infallible = { λ _. ⊤ };

    fn clone(&self) -> Result<Self, AllocError> {
        Ok(*self)
    }
}

impl<'a, M> Copy for Standing<'a, M> {}

/// How runs stand on one topic, by its number from 0. Its fact: the desk has a topic of this number.
pub struct TopicStanding<'a, M> {
    pub standing: Standing<'a, M>,
    pub number: u32,
    pub ghost known: { number < length standing.on.desk.now.topics },
}

impl<'a, M> Clone for TopicStanding<'a, M> {
    ghost is_clone = { λ x y. y ≡ x };

    ghost is_infallible = { λ _. ⊤ };

    fn clone(&self) -> Result<Self, AllocError> {
        Ok(*self)
    }
}

impl<'a, M> Copy for TopicStanding<'a, M> {}

/// How runs stand for one document of a topic, by its number in the topic's universe from 0. Its fact: the topic has a
/// document of this number.
#[derive(Drop)]
pub struct DocumentStanding<'a, M> {
    pub topic: TopicStanding<'a, M>,
    pub number: u32,
    pub ghost known: { number < length (slice_index_or topic.standing.on.marks.now topic.number []) },
}

/// How runs stand on all topics with one pair of them, by its places. Its facts: both places are runs of the desk.
#[derive(Drop)]
pub struct DeskPairStanding<'a, M> {
    pub standing: Standing<'a, M>,
    pub pair: PairPlaces,
    pub ghost first: { pair.first < length standing.on.desk.now.runs },
    pub ghost second: { pair.second < length standing.on.desk.now.runs },
}

/// How runs stand on one topic with one pair of them, by its places. Its facts: both places are runs of the desk.
#[derive(Drop)]
pub struct PairStanding<'a, M> {
    pub topic: TopicStanding<'a, M>,
    pub pair: PairPlaces,
    pub ghost first: { pair.first < length topic.standing.on.desk.now.runs },
    pub ghost second: { pair.second < length topic.standing.on.desk.now.runs },
}
