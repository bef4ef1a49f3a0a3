// The rows of a qrels file that was read.
ghost use Rattle.std.specs.Prelude.{◌≡◌, ◌≤◌, ◌<◌, length, map, option_map, slice_get, Some, true};
ghost use Rattle.std.specs.List.{IsDistinct};
ghost use Rattle.std.specs.Str.{bytes_eq};
ghost use Rattle.desk_model.specs.Name.{is_name};
ghost use Rattle.file_rows.specs.Grouped.{is_topic, names_of, rows_at, row_count, name_bytes_in};
ghost use Rattle.file_rows.specs.declared.limits.TheConstants.{MOST_NAME_BYTES};
ghost use Rattle.qrels_reader.specs.Grouped.{IsQrels};
ghost use Rattle.qrels_reader.specs.declared.limits.TheConstants.{MOST_TOPICS, MOST_QRELS_ROWS};

use file_rows::GroupedRows;
use std::marker::Model;

/// The rows of a qrels file: its topics, and the documents of each topic with their grades. Topics, and the documents of one
/// topic, are numbered from 0 in the order in which they first stood in the file. There is at least one topic; topics, and
/// the documents of one topic, have different names.
#[derive(Drop)]
pub struct Qrels {
    groups: GroupedRows<i16>,
}

impl Model for Qrels {
    ghost use Rattle.std.specs.Prelude.{List};
    ghost use Rattle.file_rows.specs.Grouped.{TopicRows};
    ghost use Rattle.qrels_reader.specs.Grouped.{IsQrels};

    ghost Value = { List TopicRows };

    ghost view = { λ q. q.groups };

    ghost invariant = { λ q. IsQrels q.groups };
}

impl Qrels {
    pub(crate) fn new(groups: GroupedRows<i16>) -> Qrels
        requires { IsQrels groups }
        ensures { result ≡ groups }
    {
        Qrels { groups }
    }

    /// How many topics there are.
    pub fn topics(&self) -> usize
        ensures count { result ≡ length self.now }
        ensures some { 0 < result }
        ensures distinct { IsDistinct bytes_eq (names_of self.now) }
        ensures most { result ≤ MOST_TOPICS }
    {
        self.groups.topics()
    }

    /// How many rows the file has.
    pub fn rows(&self) -> u32
        ensures count { result ≡ row_count self.now }
        ensures most { result ≤ MOST_QRELS_ROWS }
    {
        self.groups.rows()
    }

    /// The bytes of the document names of all rows together.
    pub fn name_bytes(&self) -> u32
        ensures count { result ≡ name_bytes_in self.now }
        ensures most { result ≤ MOST_NAME_BYTES }
    {
        self.groups.name_bytes()
    }

    /// Whether a row is on this topic.
    pub fn has_topic(&self, name: &[u8]) -> bool
        ensures { result ≡ is_topic name.now self.now }
    {
        self.groups.has_topic(name)
    }

    /// The name of topic `t`.
    pub fn topic_name(&self, t: usize) -> &[u8]
        requires { t < length self.now }
        ensures bytes { slice_get (names_of self.now) t ≡ Some result.now }
        ensures name { is_name result.now ≡ true }
    {
        self.groups.topic_name(t)
    }

    /// How many documents topic `t` has.
    pub fn doc_count(&self, t: usize) -> usize
        requires { t < length self.now }
        ensures count { result ≡ length (rows_at self.now t) }
        ensures within { result ≤ row_count self.now }
        ensures distinct { IsDistinct bytes_eq (map (λ d. d.document) (rows_at self.now t)) }
    {
        self.groups.at(t).len()
    }

    /// The name of document `i` of topic `t`.
    pub fn doc_name(&self, t: usize, i: usize) -> &[u8]
        requires { i < length (rows_at self.now t) }
        ensures bytes { option_map (λ d. d.document) (slice_get (rows_at self.now t) i) ≡
            Some result.now }
        ensures name { is_name result.now ≡ true }
    {
        self.groups.at(t).document(i)
    }

    /// The grade of document `i` of topic `t`, as it was read.
    pub fn grade(&self, t: usize, i: usize) -> i32
        requires { i < length (rows_at self.now t) }
        ensures { option_map (λ d. d.value) (slice_get (rows_at self.now t) i) ≡ Some result }
    {
        i32::from(*self.groups.at(t).value(i))
    }
}
