//! A ranking with the bounds of its run, and the bounds of the runs of a desk.
ghost use Rattle.std.specs.Prelude.{◌≡◌, ℕ, List, ◌<◌, length, slice_get, Some, IfOk};
ghost use Rattle.desk_model.specs.Desk.{AreMarksOf, ranking_of};
ghost use Rattle.desk_model.specs.declared.types.Mark.{Mark as M};
ghost use Rattle.topic_ends.specs.RunBounds.{AreBoundsOf, AreBoundsOn, AreKnown};

use crate::candidate::MarkedRun;
use crate::counts::all_documents;
use crate::run_bound::{RunBounds, bounds_of};
use desk_model::{Desk, Memory, Ranking, Rows};
use std::alloc::Global;
use std::marker::Model;

/// A run's ranking on a topic, with the run's bounds under average precision where they were computed before.
#[derive(Clone, Copy)]
pub struct Ranked<'a> {
    pub ranking: &'a Ranking,
    pub bounds: Option<RunBounds>,
}

/// The bounds of the runs of a desk on one topic, that of run 0 first.
#[derive(Drop)]
pub struct BoundsOnTopic {
    bounds: Vec<RunBounds>,
}

impl Model for BoundsOnTopic {
    ghost use Rattle.std.specs.Prelude.{List};
    ghost use Rattle.topic_ends.specs.declared.run_bound.RunBounds.{RunBounds};

    ghost Value = { List RunBounds };

    ghost view = { λ b. b.bounds.items };
}

impl BoundsOnTopic {
    /// The bounds of all runs on a topic. The only error is out of memory.
    pub fn new(
        alloc: Global,
        desk: &Desk,
        marks: &Rows,
        topic: u32,
    ) -> Result<BoundsOnTopic, Memory>
        requires marks { AreMarksOf desk.now marks.now }
        requires topic { topic < length desk.now.topics }
        ensures { IfOk result (λ row. (m : List M) → slice_get marks.now topic ≡ Some m →
            AreBoundsOn desk.now topic m row) }
    {
        let runs = desk.run_count();
        let own = marks.topic(topic);
        let all = all_documents(own);
        let mut bounds = Vec::new(alloc);
        for run in 0..runs {
            let next = bounds_of(&MarkedRun {
                docs: desk.ranking(run, topic).docs(),
                marks: own,
                all,
            });
            bounds.push(next)?;
        }
        Ok(BoundsOnTopic { bounds })
    }

    /// The bounds, that of run 0 at place 0.
    pub fn as_slice(&self) -> &[RunBounds]
        ensures { result.now ≡ self.now }
    {
        self.bounds.as_slice()
    }
}

/// The bounds of all runs of a desk on each topic. The only error is out of memory.
pub fn bounds_of_desk(
    alloc: Global,
    desk: &Desk,
    marks: &Rows,
) -> Result<Vec<BoundsOnTopic>, Memory>
    requires { AreMarksOf desk.now marks.now }
    ensures { IfOk result (λ bounds. AreBoundsOf desk.now marks.now bounds.items) }
{
    let mut bounds = Vec::new(alloc);
    for topic in 0..desk.topic_count() {
        let next = BoundsOnTopic::new(alloc, desk, marks, topic)?;
        bounds.push(next)?;
    }
    Ok(bounds)
}

/// The ranking of a run on a topic of a desk, with its bounds as far as they are there.
pub fn known_ranking<'a>(
    desk: &'a Desk,
    bounds: &[BoundsOnTopic],
    run: u32,
    topic: u32,
) -> Ranked<'a>
    requires run { run < length desk.now.runs }
    requires topic { topic < length desk.now.topics }
    ensures ranking { result.ranking.now ≡ ranking_of desk.now run topic }
    ensures bounds { (marks : List (List M)) (m : List M) → AreBoundsOf desk.now marks bounds.now →
        slice_get marks topic ≡ Some m → AreKnown m result.ranking.now result.bounds }
{
    let ranking = desk.ranking(run, topic);
    let bounds = match bounds.get(topic as usize) {
        Some(row) => match row.as_slice().get(run as usize) {
            Some(bounds) => Some(*bounds),
            None => None,
        },
        None => None,
    };
    Ranked { ranking, bounds }
}
