// The numbers of all topics of a desk.
ghost use Rattle.std.specs.Prelude.{◌≡◌, ◌+◌, ◌*◌, ◌≤◌, All, length, slice_set, IfOk};
ghost use Rattle.desk_model.specs.Desk.{AreMarksOf};
ghost use Rattle.desk_model.specs.Pairs.{pairs_of};
ghost use Rattle.pair_table.specs.Kept.{all_numbers, kept_sums, AreTopicNumbers};
ghost use Rattle.pair_table.specs.Sums.{run_numbers};
ghost use Rattle.pair_table.specs.TopicUnder.{numbers_of};

use crate::kept::KeptTopic;
use crate::marked_topic::MarkedTopic;
use crate::sums::KeptSums;
use desk_model::{Desk, Rows};
use measure_core::{CellRoom, Measure, Steps};
use std::alloc::{AllocError, Global};
use std::sync::ledger::Ledger;

/// Room for the numbers of the topics of a desk.
pub fn topic_rooms(alloc: Global, desk: &Desk) -> Result<Vec<KeptTopic>, AllocError>
    ensures count { IfOk result (λ rooms. length rooms.items ≡ length desk.now.topics) }
    ensures runs { IfOk result (λ rooms.
        All (λ kept. length kept.bounds ≡ length desk.now.runs) rooms.items) }
{
    let topics = desk.topic_count();
    let mut rooms = Vec::with_capacity(alloc, topics as usize)?;
    for _topic in 0..topics {
        rooms.push(KeptTopic::new(alloc, desk)?)?;
    }
    Ok(rooms)
}

/// How many documents the topic has that has the most.
pub fn most_documents(desk: &Desk) -> u32
    ensures { All (λ book. length book.docs ≤ result) desk.now.topics }
{
    let mut most = 0;
    for t in 0..desk.topic_count() {
        most = desk.topic(t).doc_count().max(most);
    }
    most
}

/// Evaluates the numbers of each topic, one after the other in one room. It is one step for each pair and
/// topic.
pub fn evaluate_topics<M: Measure, L: Ledger>(
    topics: &mut [KeptTopic],
    measure: &M,
    desk: &Desk,
    marks: &Rows,
    room: &mut CellRoom,
    steps: &mut Steps<L>,
)
    requires marks { AreMarksOf desk.now marks.now }
    requires count { length topics.old ≡ length desk.now.topics }
    requires runs { All (λ kept. length kept.bounds ≡ length desk.now.runs) topics.old }
    ensures numbers { topics.new ≡
        all_numbers (M.cell_of measure.now) (M.bounds_of measure.now) desk.now marks.now }
    ensures sizes { All (AreTopicNumbers (length desk.now.runs)) topics.new }
    ensures steps { steps.new ≡ steps.old + length (pairs_of (run_numbers (length desk.now.runs))) *
        length desk.now.topics }
{
    for number in 0..desk.topic_count() {
        let topic = MarkedTopic::of(desk, marks, number);
        let kept = &mut topics[number as usize];
        kept.evaluate(measure, &topic, room, steps);
    }
}

/// Evaluates the numbers of one topic in a room whose contents are anything, and makes the sums those with its new
/// numbers. It is one step for each pair.
pub fn renew_topic<M: Measure, L: Ledger>(
    topics: &mut [KeptTopic],
    sums: &mut KeptSums,
    measure: &M,
    topic: &MarkedTopic<'_>,
    room: &mut CellRoom,
    steps: &mut Steps<L>,
)
    requires count { length topics.old ≡ length topic.now.desk.topics }
    requires sizes { All (AreTopicNumbers (length topic.now.desk.runs)) topics.old }
    requires sums { sums.old ≡ kept_sums (length topic.now.desk.runs) topics.old }
    ensures topics { topics.new ≡
        slice_set topics.old topic.now.number
        (numbers_of (M.cell_of measure.now) (M.bounds_of measure.now) topic.now) }
    ensures sizes { All (AreTopicNumbers (length topic.now.desk.runs)) topics.new }
    ensures sums { sums.new ≡ kept_sums (length topic.now.desk.runs) topics.new }
    ensures steps { steps.new ≡ steps.old +
        length (pairs_of (run_numbers (length topic.now.desk.runs))) }
{
    let number = topic.number();
    let kept = &mut topics[number as usize];
    sums.take_back(kept);
    kept.evaluate(measure, topic, room, steps);
    sums.add(kept);
}
