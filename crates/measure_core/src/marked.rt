//! Rankings of a topic with the marks of its documents.
ghost use Rattle.std.proofs.Props.{props};
ghost use Rattle.std.specs.Prelude.{length};
ghost use Rattle.measure_core.specs.Laws.{AreMet, IsMet};
ghost use Rattle.measure_core.specs.Marked.{IsAscending-prop};
ghost use Rattle.measure_core.specs.Pairs.{AreAllMet};
ghost use Rattle.measure_core.specs.Places.{IsLeft};
ghost use Rattle.measure_core.specs.Ranks.{AreRanksIn};

use crate::rankings::TopicRankings;
use desk_model::{Mark, Placed, Ranking};

/// A ranking of a topic with the marks of its documents, over whose universe it is.
#[derive(Clone, Copy)]
pub struct MarkedRun<'r, 'm> {
    pub run: &'r Ranking,
    pub marks: &'m [Mark],
    pub ghost met: { IsMet marks.now run.now } by { Prim.hlevel props },
}

/// Two rankings of a topic with the marks of its documents, over whose universe both are.
#[derive(Clone, Copy)]
pub struct MarkedPair<'a, 'b, 'm> {
    pub a: &'a Ranking,
    pub b: &'b Ranking,
    pub marks: &'m [Mark],
    pub ghost met: { AreMet marks.now a.now b.now } by { Prim.hlevel props },
}

/// The rankings of all runs on a topic with the marks of its documents, over whose universe all are.
#[derive(Clone, Copy)]
pub struct MarkedRankings<'r, 'd, 'm> {
    pub rankings: &'r TopicRankings<'d>,
    pub marks: &'m [Mark],
    pub ghost met: { AreAllMet marks.now rankings.now } by { Prim.hlevel props },
}

/// Places of a ranking of a topic, ascending by document, with the marks of the topic's documents.
#[derive(Clone, Copy)]
pub struct MarkedPlaces<'p, 'm> {
    pub places: &'p [Placed],
    pub marks: &'m [Mark],
    pub ghost left: { IsLeft (length marks.now) places.now } by { Prim.hlevel (props, IsAscending-prop) },
}

/// Two rankings of a topic with the marks of its documents, over whose universe both are, and the rank of each document
/// in either, from 1, and 0 for none.
#[derive(Clone, Copy)]
pub struct RankedPair<'a, 'b, 'm, 'r> {
    pub a: &'a Ranking,
    pub b: &'b Ranking,
    pub marks: &'m [Mark],
    pub first: &'r [u32],
    pub second: &'r [u32],
    pub ghost met: { AreMet marks.now a.now b.now } by { Prim.hlevel props },
    pub ghost first_ranks: { AreRanksIn marks.now a.now first.now } by { Prim.hlevel props },
    pub ghost second_ranks: { AreRanksIn marks.now b.now second.now } by { Prim.hlevel props },
}
