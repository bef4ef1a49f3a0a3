// Rows that are grouped by their topics.
ghost use Rattle.std.specs.Prelude.{◌≡◌, ◌≤◌, ◌<◌, [], length, position, slice_get, Some, MatchOption};
ghost use Rattle.std.specs.Str.{bytes_eq};
ghost use Rattle.file_rows.specs.Grouped.{is_topic, names_of, rows_at, rows_in, row_count, name_bytes_in, without_rows, emptied};
ghost use Rattle.file_rows.specs.Names.{topics_in, IsCounted};

use crate::value::RowValue;
use crate::valued_rows::ValuedRows;
use name_table::DistinctNames;
use std::alloc::Global;
use std::marker::Model;

/// The rows of a file, grouped by their topics. Topics, and the rows of one topic, are numbered from 0 in the order of the file.
#[derive(Drop)]
pub struct GroupedRows<V: RowValue> {
    topics: DistinctNames,
    grouped: Vec<ValuedRows<V>>,
    rows: u32,
    name_bytes: u32,
}

impl<V: RowValue> Model for GroupedRows<V> {
    ghost use Rattle.std.specs.Prelude.{◌≡◌, List, length};
    ghost use Rattle.file_rows.specs.Grouped.{TopicRows};
    ghost use Rattle.file_rows.specs.Names.{topics_in, IsCounted};

    ghost Value = { List TopicRows };

    ghost view = { λ g. topics_in g.topics g.grouped.items };

    ghost invariant = { λ g. IsCounted g.topics g.grouped.items g.rows g.name_bytes };
}

impl<V: RowValue> GroupedRows<V> {
    // Topics and the rows of each.
    pub(crate) fn of(
        topics: DistinctNames,
        grouped: Vec<ValuedRows<V>>,
        rows: u32,
        name_bytes: u32,
    ) -> GroupedRows<V>
        requires { IsCounted topics grouped.items rows name_bytes }
        ensures { result ≡ topics_in topics grouped.items }
    {
        GroupedRows {
            topics,
            grouped,
            rows,
            name_bytes,
        }
    }

    /// How many topics there are.
    pub fn topics(&self) -> usize
        ensures { result ≡ length self.now }
    {
        self.topics.len()
    }

    /// How many rows all topics have.
    pub fn rows(&self) -> u32
        ensures { result ≡ row_count self.now }
    {
        self.rows
    }

    /// The bytes of the document names of all rows together.
    pub fn name_bytes(&self) -> u32
        ensures { result ≡ name_bytes_in self.now }
    {
        self.name_bytes
    }

    /// Whether a row is on this topic.
    pub fn has_topic(&self, name: &[u8]) -> bool
        ensures { result ≡ is_topic name.now self.now }
    {
        self.topics.place(name).is_some()
    }

    /// The name of topic `t`.
    pub fn topic_name(&self, t: usize) -> &[u8]
        requires { t < length self.now }
        ensures { slice_get (names_of self.now) t ≡ Some result.now }
    {
        self.topics.get(t)
    }

    /// The rows of topic `t`.
    pub fn at(&self, t: usize) -> &ValuedRows<V>
        requires { t < length self.now }
        ensures rows { result.now ≡ rows_at self.now t }
        ensures within { length result.now ≤ row_count self.now }
    {
        &self.grouped[t]
    }

    /// The number of a topic.
    pub fn place(&self, name: &[u8]) -> Option<usize>
        ensures { result ≡ position (bytes_eq name.now) (names_of self.now) }
    {
        self.topics.place(name)
    }

    /// The rows of a topic, where there are any.
    pub fn rows_on(&self, name: &[u8]) -> Option<&ValuedRows<V>>
        ensures { MatchOption result (rows_in name.now self.now ≡ []) (λ rows. rows.now ≡
            rows_in name.now self.now) }
    {
        match self.place(name) {
            Some(t) => Some(self.at(t)),
            None => None,
        }
    }

    /// The names of the topics, and the rows of each.
    pub fn into_parts(self) -> (DistinctNames, Vec<ValuedRows<V>>)
        ensures topics { topics_in result.0 result.1.items ≡ self }
        ensures each { length result.0 ≡ length result.1.items }
    {
        let GroupedRows {
            topics,
            grouped,
            rows: _,
            name_bytes: _,
        } = self;
        (topics, grouped)
    }

    /// Gives back the rows of a topic, where it is there. The topic stays, and has no row then.
    pub fn forget(&mut self, alloc: Global, name: &[u8])
        ensures { self.new ≡ without_rows name.now self.old }
    {
        match self.place(name) {
            Some(t) => self.empty(alloc, t),
            None => {}
        }
    }

    // Gives back the rows of topic `t`.
    fn empty(&mut self, alloc: Global, t: usize)
        requires { t < length self.old }
        ensures { self.new ≡ emptied self.old t }
    {
        let grouped = &mut self.grouped[t];
        let rows = grouped.len() as u32;
        let name_bytes = grouped.name_bytes() as u32;
        *grouped = ValuedRows::new(alloc);
        self.rows -= rows;
        self.name_bytes -= name_bytes;
    }
}
