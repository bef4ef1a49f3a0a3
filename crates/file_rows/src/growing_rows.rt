// The rows of a file that is being read, grouped by their topics.
ghost use Rattle.std.specs.Prelude.{◌≡◌, ◌+◌, ◌^◌, ◌<◌, [], ◌∷◌, ◌++◌, if◌then◌else◌, true, false, length, not, Err, IfOk, OnOk, OnErr};
ghost use Rattle.file_rows.specs.Grouped.{is_topic, place_of, rows_at, rows_in, row_count, name_bytes_in, stands_in, with_valued, with_row_on};

use crate::distinct_rows::DistinctRows;
use crate::fault::LineFault;
use crate::grouped_rows::GroupedRows;
use crate::value::RowValue;
use crate::valued_rows::ValuedRows;
use name_table::DistinctNames;
use std::alloc::{AllocError, Global};
use std::marker::Model;

/// The rows of a file that is being read, grouped by their topics. Topics, and the rows of one topic, are numbered from 0 in the order
/// of the file. A document that comes again in its topic is found as its row is put.
#[derive(Drop)]
pub struct GrowingRows<V: RowValue> {
    topics: DistinctNames,
    grouped: Vec<DistinctRows<V>>,
    rows: u32,
    name_bytes: u32,
}

impl<V: RowValue> Model for GrowingRows<V> {
    ghost use Rattle.std.specs.Prelude.{◌≡◌, List, length};
    ghost use Rattle.file_rows.specs.Grouped.{TopicRows};
    ghost use Rattle.file_rows.specs.Names.{topics_in, IsCounted};

    ghost Value = { List TopicRows };

    ghost view = { λ g. topics_in g.topics g.grouped.items };

    ghost invariant = { λ g. IsCounted g.topics g.grouped.items g.rows g.name_bytes };
}

impl<V: RowValue> GrowingRows<V> {
    /// No topic. It takes no memory.
    pub fn new(alloc: Global) -> GrowingRows<V>
        ensures { result ≡ [] }
    {
        GrowingRows {
            topics: DistinctNames::new(alloc),
            grouped: Vec::new(alloc),
            rows: 0,
            name_bytes: 0,
        }
    }

    /// How many topics there are.
    pub fn topics(&self) -> usize
        ensures { result ≡ length self.now }
    {
        self.topics.len()
    }

    /// How many rows all topics have.
    pub fn rows(&self) -> u32
        ensures { result ≡ row_count self.now }
    {
        self.rows
    }

    /// The bytes of the document names of all rows together.
    pub fn name_bytes(&self) -> u32
        ensures { result ≡ name_bytes_in self.now }
    {
        self.name_bytes
    }

    /// The number of a topic.
    pub fn place(&self, name: &[u8]) -> Option<usize>
        ensures { result ≡ place_of name.now self.now }
    {
        self.topics.place(name)
    }

    /// The rows of topic `t`.
    pub fn at(&self, t: usize) -> &DistinctRows<V>
        requires { t < length self.now }
        ensures { result.now ≡ rows_at self.now t }
    {
        &self.grouped[t]
    }

    /// Puts a row into its topic, whose number is `place` where it has one, and answers the row's first fault where it has one: that its
    /// document stands in its topic, or else what `room` says, which is a limit that the row would pass. It fails only where memory
    /// runs out, or the names of all topics would have 4,294,967,296 bytes together.
    pub fn put_row(
        &mut self,
        alloc: Global,
        place: Option<usize>,
        topic: &[u8],
        document: &[u8],
        value: V,
        room: Result<(), LineFault>,
    ) -> Result<Result<(), LineFault>, AllocError>
        requires place { place ≡ place_of topic.now self.old }
        requires rows { OnOk room (row_count self.old + 1 < 2 ^ 32) }
        requires names { OnOk room (name_bytes_in self.old + length document.now < 2 ^ 32) }
        ensures told { IfOk result (λ told. told ≡
            (if stands_in document.now (rows_in topic.now self.old)
            then Err LineFault.RepeatedDocument else room)) }
        ensures added { IfOk result (λ told. OnOk told (self.new ≡ with_row_on self.old
            (record { topic = topic.now; document = document.now; value = V.number value }))) }
    {
        match room {
            Ok(()) => {
                if self.insert(alloc, place, topic, document, value)? {
                    Ok(Ok(()))
                } else {
                    Ok(Err(LineFault::RepeatedDocument))
                }
            }
            Err(limit) => {
                if self.contains(place, topic, document) {
                    Ok(Err(LineFault::RepeatedDocument))
                } else {
                    Ok(Err(limit))
                }
            }
        }
    }

    // Whether a topic, whose number is `place` where it has one, has a row of a document.
    fn contains(&self, place: Option<usize>, topic: &[u8], document: &[u8]) -> bool
        requires { place ≡ place_of topic.now self.now }
        ensures { result ≡ stands_in document.now (rows_in topic.now self.now) }
    {
        match place {
            Some(t) => self.at(t).contains(document),
            None => false,
        }
    }

    // Puts a row into its topic, unless its document stands there, and answers whether it did not.
    fn insert(
        &mut self,
        alloc: Global,
        place: Option<usize>,
        topic: &[u8],
        document: &[u8],
        value: V,
    ) -> Result<bool, AllocError>
        requires place { place ≡ place_of topic.now self.old }
        requires rows { row_count self.old + 1 < 2 ^ 32 }
        requires names { name_bytes_in self.old + length document.now < 2 ^ 32 }
        ensures new { IfOk result (λ is_new. is_new ≡
            not (stands_in document.now (rows_in topic.now self.old))) }
        ensures added { IfOk result (λ is_new. is_new ≡ true → self.new ≡ with_row_on self.old
            (record { topic = topic.now; document = document.now; value = V.number value })) }
    {
        match place {
            Some(t) => self.insert_at(alloc, t, document, value),
            None => {
                let t = self.topics();
                self.add_topic(alloc, topic)?;
                self.insert_at(alloc, t, document, value)
            }
        }
    }

    // Puts a topic with no row at the end, and room for as many as the topic before it has. It fails only where memory runs out, or the
    // names of all topics would have 4,294,967,296 bytes together, and then changes nothing.
    fn add_topic(&mut self, alloc: Global, name: &[u8]) -> Result<(), AllocError>
        requires { is_topic name.now self.old ≡ false }
        ensures ok { OnOk result (self.new ≡ self.old ++ record { name = name.now; rows = [] } ∷
            []) }
        ensures err { OnErr result (self.new ≡ self.old) }
    {
        self.grouped.reserve(1)?;
        let rows = no_rows(alloc, &self.grouped)?;
        self.topics.push(alloc, name)?;
        self.grouped.push_reserved(rows);
        Ok(())
    }

    // Puts a row at the end of topic `t`, unless its document stands there, and answers whether it did not. It fails only where memory
    // runs out, and then changes nothing.
    fn insert_at(
        &mut self,
        alloc: Global,
        t: usize,
        document: &[u8],
        value: V,
    ) -> Result<bool, AllocError>
        requires topic { t < length self.old }
        requires rows { row_count self.old + 1 < 2 ^ 32 }
        requires names { name_bytes_in self.old + length document.now < 2 ^ 32 }
        ensures new { IfOk result (λ is_new. is_new ≡
            not (stands_in document.now (rows_at self.old t))) }
        ensures rows { IfOk result (λ is_new. self.new ≡ (if is_new then
            with_valued self.old t (record { document = document.now; value = V.number value })
            else self.old)) }
        ensures err { OnErr result (self.new ≡ self.old) }
    {
        let grouped = &mut self.grouped[t];
        let is_new = grouped.insert(alloc, document, value)?;
        if !is_new {
            return Ok(false);
        }
        self.rows += 1;
        self.name_bytes += document.len() as u32;
        Ok(true)
    }

    /// The same rows, to which none is added. It fails only where memory runs out.
    pub fn into_grouped(self, alloc: Global) -> Result<GroupedRows<V>, AllocError>
        ensures { IfOk result (λ rows. rows ≡ self) }
    {
        let GrowingRows {
            topics,
            grouped,
            rows,
            name_bytes,
        } = self;
        let grouped = rows_of_all(alloc, grouped)?;
        Ok(GroupedRows::of(topics, grouped, rows, name_bytes))
    }
}

// No row of a new topic, and room for as many as the topic before it has, since the topics of a file mostly have about as many.
fn no_rows<V: RowValue>(
    alloc: Global,
    before: &[DistinctRows<V>],
) -> Result<DistinctRows<V>, AllocError>
    ensures { IfOk result (λ rows. rows ≡ []) }
{
    match before.last() {
        Some(last) => DistinctRows::with_room_of(alloc, last),
        None => Ok(DistinctRows::new(alloc)),
    }
}

// The rows of topics, in which no document is searched.
fn rows_of_all<V: RowValue>(
    alloc: Global,
    grouped: Vec<DistinctRows<V>>,
) -> Result<Vec<ValuedRows<V>>, AllocError>
    ensures { IfOk result (λ rows. rows.items ≡ grouped.items) }
{
    let mut rows = Vec::with_capacity(alloc, grouped.len())?;
    for topic in grouped {
        rows.push(topic.into_rows())?;
    }
    Ok(rows)
}
