// A run that was read.
ghost use Rattle.std.specs.Prelude.{◌≡◌, ◌<◌, ◌≤◌, [], List, ℕ, true, false, All, length, map, option_map, slice_get, Some, MatchOption};
ghost use Rattle.std.specs.List.{IsDistinct};
ghost use Rattle.std.specs.Str.{bytes_eq};
ghost use Rattle.desk_model.specs.Name.{is_name};
ghost use Rattle.file_rows.specs.Grouped.{names_of, row_count};
ghost use Rattle.run_reader.specs.Run.{IsRun, IsWithinLimits, rows_on_topic};

use crate::limits::MOST_RANKS;
use crate::used::Used;
use desk_model::Name;
use desk_text::Score;
use file_rows::{GroupedRows, ValuedRows};
use std::alloc::Global;
use std::marker::Model;

/// A run: its name and its kept rows, which are those on topics of the qrels.
#[derive(Drop)]
pub struct RunRows {
    name: Name,
    kept: GroupedRows<Score>,
    used: Used,
}

impl Model for RunRows {
    ghost use Rattle.std.specs.Prelude.{◌≡◌, true};
    ghost use Rattle.desk_model.specs.Name.{is_name};
    ghost use Rattle.run_reader.specs.Run.{Run, IsRun, IsWithinLimits};

    ghost Value = { Run };

    ghost view = { λ r. record { name = r.name; topics = r.kept; used = r.used } };

    ghost invariant = { λ r. (is_name r.name ≡ true) × IsRun r.kept × IsWithinLimits r.used };
}

impl RunRows {
    pub(crate) fn new(name: Name, kept: GroupedRows<Score>, used: Used) -> RunRows
        requires name { is_name name ≡ true }
        requires kept { IsRun kept }
        requires used { IsWithinLimits used }
        ensures { result ≡ record { name = name; topics = kept; used = used } }
    {
        RunRows { name, kept, used }
    }

    /// The run's name, its kept rows, and what this and the earlier files used.
    pub fn into_parts(self) -> (Name, GroupedRows<Score>, Used)
        ensures name { result.0 ≡ self.name }
        ensures kept { result.1 ≡ self.topics }
        ensures used { result.2 ≡ self.used }
        ensures named { is_name result.0 ≡ true }
        ensures run { IsRun result.1 }
        ensures within { IsWithinLimits result.2 }
    {
        let RunRows { name, kept, used } = self;
        (name, kept, used)
    }

    /// Gives back the rows of a topic, which has none then. All else stays as it is.
    pub fn forget(&mut self, alloc: Global, topic: &[u8])
        ensures gone { rows_on_topic self.new topic.now ≡ [] }
        ensures others { (other : List ℕ) → bytes_eq topic.now other ≡ false →
            rows_on_topic self.new other ≡ rows_on_topic self.old other }
        ensures topics { names_of self.new.topics ≡ names_of self.old.topics }
        ensures rows { row_count self.new.topics ≤ row_count self.old.topics }
        ensures name { self.new.name ≡ self.old.name }
        ensures used { self.new.used ≡ self.old.used }
    {
        self.kept.forget(alloc, topic);
    }

    /// The run's name.
    pub fn name(&self) -> &[u8]
        ensures value { result.now ≡ self.now.name }
        ensures name { is_name self.now.name ≡ true }
        ensures topics { IsRun self.now.topics }
    {
        self.name.as_bytes()
    }

    /// What this and the earlier files used.
    pub fn used(&self) -> Used
        ensures value { result ≡ self.now.used }
        ensures within { IsWithinLimits result }
    {
        self.used
    }

    /// The kept rows of a topic, in the order of the file, where there are any.
    pub fn rows_on(&self, topic: &[u8]) -> Option<&ValuedRows<Score>>
        ensures rows { MatchOption result (rows_on_topic self.now topic.now ≡ []) (λ rows.
            rows.now ≡ rows_on_topic self.now topic.now) }
        ensures distinct { IsDistinct bytes_eq
            (map (λ row. row.document) (rows_on_topic self.now topic.now)) }
        ensures names { All (λ row. is_name row.document ≡ true)
            (rows_on_topic self.now topic.now) }
        ensures few { length (rows_on_topic self.now topic.now) ≤ MOST_RANKS }
    {
        self.kept.rows_on(topic)
    }

    /// How many kept rows a topic has.
    pub fn topic_rows(&self, topic: &[u8]) -> usize
        ensures count { result ≡ length (rows_on_topic self.now topic.now) }
        ensures few { result ≤ MOST_RANKS }
    {
        match self.rows_on(topic) {
            Some(rows) => rows.len(),
            None => 0,
        }
    }

    /// The document of row `i` of a topic, counted from 0 in the order of the file.
    pub fn doc(&self, topic: &[u8], i: usize) -> &[u8]
        requires { i < length (rows_on_topic self.now topic.now) }
        ensures { option_map (λ row. row.document) (slice_get (rows_on_topic self.now topic.now) i)
            ≡ Some result.now }
    {
        match self.rows_on(topic) {
            Some(rows) => rows.document(i),
            None => unreachable!(),
        }
    }

    /// The score of row `i` of a topic, counted from 0 in the order of the file.
    pub fn score(&self, topic: &[u8], i: usize) -> &Score
        requires { i < length (rows_on_topic self.now topic.now) }
        ensures { option_map (λ row. row.value) (slice_get (rows_on_topic self.now topic.now) i) ≡
            Some result.now }
    {
        match self.rows_on(topic) {
            Some(rows) => rows.value(i),
            None => unreachable!(),
        }
    }
}
