ghost use Rattle.std.proofs.Props.{props};
ghost use Rattle.std.specs.Prelude.{◌+◌, ◌≤◌, IfSome};
ghost use Rattle.desk_model.specs.Limits.{DOCUMENT_LIMIT};
ghost use Rattle.measure_core.specs.Laws.{AreMet};
ghost use Rattle.measure_core.specs.Marked.{IsAscending-prop};
ghost use Rattle.measure_core.specs.Ranks.{AreRanksIn};
ghost use Rattle.rprec.specs.Blocks.{AreBlockSums};
ghost use Rattle.rprec.specs.Greedy.{AreTopic};
ghost use Rattle.rprec.specs.Shared.{AreByDocument};

use desk_model::{Mark, Placed, Ranking};
use measure_core::RunSums;
use topic_counts::counts::Counts;

/// Two rankings of a topic with the marks of its documents, and the sums of each.
#[derive(Clone, Copy)]
pub struct SummedPair<'a, 'b, 'm, 's> {
    pub a: &'a Ranking,
    pub b: &'b Ranking,
    pub marks: &'m [Mark],
    /// The sums of the first run.
    pub first: &'s RunSums,
    /// The sums of the second run.
    pub second: &'s RunSums,
    pub ghost met: { AreMet marks.now a.now b.now } by { Prim.hlevel props },
    pub ghost first_sums: { AreBlockSums marks.now a.now first.now.numbers } by { Prim.hlevel props },
    pub ghost second_sums: { AreBlockSums marks.now b.now second.now.numbers } by { Prim.hlevel props },
}

/// The documents of two runs of a topic by rank, with the marks of the topic's documents: by what it is found which
/// documents both have, the sums of each run, and the counts of all documents.
#[derive(Clone, Copy)]
pub struct KnownPair<'a, 'b, 'm, 's, 'o> {
    pub a: &'a [u32],
    pub b: &'b [u32],
    pub marks: &'m [Mark],
    /// The documents of the first run with their ranks, ascending by document.
    pub first_places: &'a [Placed],
    /// Those of the second run.
    pub second_places: &'b [Placed],
    /// The rank of each document in the first run, from 1, and 0 for none, where that is at hand.
    pub ranks: Option<&'o [u32]>,
    /// The sums of the first run.
    pub first: &'s RunSums,
    /// The sums of the second run.
    pub second: &'s RunSums,
    /// The counts of all documents of the topic.
    pub all: Counts,
    pub ghost met: { AreMet marks.now a.now b.now } by { Prim.hlevel props },
    pub ghost first_by_document: { AreByDocument a.now first_places.now } by { Prim.hlevel (props, IsAscending-prop) },
    pub ghost second_by_document: { AreByDocument b.now second_places.now } by { Prim.hlevel (props, IsAscending-prop) },
    pub ghost ranked: { IfSome ranks (λ ranks. AreRanksIn marks.now a.now ranks.now) } by { Prim.hlevel props },
    pub ghost first_sums: { AreBlockSums marks.now a.now first.now.numbers } by { Prim.hlevel props },
    pub ghost second_sums: { AreBlockSums marks.now b.now second.now.numbers } by { Prim.hlevel props },
    pub ghost topic: { AreTopic marks.now all } by { Prim.hlevel props },
    pub ghost few: { all.relevant + all.unjudged ≤ DOCUMENT_LIMIT },
}
