// A table that stands for a desk under marks, alone, with a pair of runs, and with pairs. Each type carries what is known
// of its fields, so that a function over it asks no such thing of its callers.
ghost use Rattle.std.specs.Prelude.{◌<◌, ◌≤◌, All, length};
ghost use Rattle.desk_model.specs.Desk.{AreMarksOf};
ghost use Rattle.order_bundle.specs.Bundle.{CLAIM_LIMIT};
ghost use Rattle.pair_table.specs.Kept.{StandsFor};
ghost use Rattle.table_bundle.specs.Drafts.{IsRunPair};
ghost use Rattle.table_bundle.specs.Marked.{AreMarksOf-prop};

use crate::pairs::NamedPair;
use desk_model::{Desk, Rows};
use measure_core::Measure;
use pair_table::Table;

/// A table that stands for a desk under marks. There is a mark for each document.
#[derive(Drop)]
pub struct StandingTable<'a, M: Measure> {
    pub table: &'a Table<M>,
    pub desk: &'a Desk,
    pub marks: &'a Rows,
    pub ghost marked: { AreMarksOf desk.now marks.now } by { AreMarksOf-prop desk.now marks.now },
    pub ghost stands: { StandsFor (M.cell_of table.now.measure) (M.bounds_of table.now.measure)
        desk.now marks.now table.now },
}

/// Two different runs of the desk of such a table.
#[derive(Drop)]
pub struct StandingPair<'s, 'a, M: Measure> {
    pub standing: &'s StandingTable<'a, M>,
    pub pair: NamedPair,
    pub ghost known: { IsRunPair (length standing.now.desk.now.runs) pair },
}

/// Pairs of different runs of the desk of such a table, no more than a bundle has claims.
#[derive(Drop)]
pub struct StandingPairs<'s, 'a, M: Measure> {
    pub standing: &'s StandingTable<'a, M>,
    pub pairs: &'s [NamedPair],
    pub ghost known: { All (IsRunPair (length standing.now.desk.now.runs)) pairs.now },
    pub ghost few: { length pairs.now ≤ CLAIM_LIMIT },
}

/// The same on one topic of the desk, by its number from 0.
#[derive(Drop)]
pub struct TopicPairs<'t, 's, 'a, M: Measure> {
    pub on: &'t StandingPairs<'s, 'a, M>,
    pub number: u32,
    pub ghost known: { number < length on.now.standing.now.desk.now.topics },
}
