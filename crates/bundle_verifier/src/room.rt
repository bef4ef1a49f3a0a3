ghost use Rattle.std.specs.Prelude.{◌≡◌, IfOk};
ghost use Rattle.desk_model.specs.Desk.{AreMarksOf};
ghost use Rattle.topic_ends.specs.Counted.{AreCountsOf};
ghost use Rattle.topic_ends.specs.RunBounds.{AreBoundsOf};

use crate::numbers::{DocumentNumbers, numbers_on};
use desk_model::{Desk, MeasureName, Memory, Rows};
use order_bundle::Bundle;
use order_verifier::{BoundsOnTopic, RelevantCounts, all_documents, bounds_of_desk};
use std::alloc::Global;
use std::marker::Model;

/// A bundle beside a desk and its marks, with what each claim would count and look up anew: the counts of each
/// topic's documents, the desk's number of each of the bundle's document lines, and under average precision the bounds
/// of each run.
#[derive(Drop)]
pub struct Room<'a> {
    pub(crate) desk: &'a Desk,
    pub(crate) marks: &'a Rows,
    pub(crate) bundle: &'a Bundle,
    pub(crate) counts: Vec<RelevantCounts>,
    pub(crate) numbers: Vec<DocumentNumbers>,
    pub(crate) bounds: Vec<BoundsOnTopic>,
}

impl<'a> Model for Room<'a> {
    ghost use Rattle.bundle_verifier.specs.Room.{BesideDesk, IsRoom};

    ghost Value = { BesideDesk };

    ghost view = { λ r. record { desk = r.desk.now; marks = r.marks.now; bundle = r.bundle.now } };

    ghost invariant = { λ r. IsRoom (record { desk = r.desk.now; marks = r.marks.now; bundle = r.bundle.now }) r.counts.items r.numbers.items r.bounds.items };
}

/// The counts of the documents of each topic.
fn count_topics(alloc: Global, desk: &Desk, marks: &Rows) -> Result<Vec<RelevantCounts>, Memory>
    requires { AreMarksOf desk.now marks.now }
    ensures { IfOk result (λ counts. AreCountsOf marks.now counts.items) }
{
    let mut counts = Vec::new(alloc);
    for topic in 0..desk.topic_count() {
        let next = all_documents(marks.topic(topic));
        counts.push(next)?;
    }
    Ok(counts)
}

/// The bounds of each run on each topic where the measure is average precision and the bundle has as many claims as the
/// desk has runs, and else none: then each claim makes its own.
fn bounds_under(
    alloc: Global,
    desk: &Desk,
    marks: &Rows,
    bundle: &Bundle,
) -> Result<Vec<BoundsOnTopic>, Memory>
    requires { AreMarksOf desk.now marks.now }
    ensures { IfOk result (λ bounds. AreBoundsOf desk.now marks.now bounds.items) }
{
    let is_average = matches!(bundle.measure, MeasureName::AveragePrecision);
    if is_average && bundle.claims.as_slice().len() >= desk.run_count() as usize {
        bounds_of_desk(alloc, desk, marks)
    } else {
        Ok(Vec::new(alloc))
    }
}

impl<'a> Room<'a> {
    /// A room for checking a bundle of a desk under its marks. The only error is out of memory.
    pub fn new(
        alloc: Global,
        desk: &'a Desk,
        marks: &'a Rows,
        bundle: &'a Bundle,
    ) -> Result<Room<'a>, Memory>
        requires { AreMarksOf desk.now marks.now }
        ensures { IfOk result (λ room. room ≡
            record { desk = desk.now; marks = marks.now; bundle = bundle.now }) }
    {
        Ok(Room {
            desk,
            marks,
            bundle,
            counts: count_topics(alloc, desk, marks)?,
            numbers: numbers_on(alloc, desk, bundle.topics.as_slice())?,
            bounds: bounds_under(alloc, desk, marks, bundle)?,
        })
    }
}
