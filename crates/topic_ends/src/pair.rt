//! Two runs on a topic.
ghost use Rattle.std.proofs.Props.{props};
ghost use Rattle.std.specs.Prelude.{◌≤◌, length};
ghost use Rattle.desk_model.specs.Limits.{DOCUMENT_LIMIT};
ghost use Rattle.desk_model.specs.Ranking.{IsRanking};

use desk_model::{Mark, Ranking};

/// The rankings of two runs on a topic, with the marks of the topic's documents.
#[derive(Clone, Copy)]
pub struct MarkedPair<'a, 'b, 'm> {
    pub a: &'a Ranking,
    pub b: &'b Ranking,
    pub marks: &'m [Mark],
    pub ghost first: { IsRanking (length marks.now) a.now } by { Prim.hlevel props },
    pub ghost second: { IsRanking (length marks.now) b.now } by { Prim.hlevel props },
    pub ghost few: { length marks.now ≤ DOCUMENT_LIMIT },
}
