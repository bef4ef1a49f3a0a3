// The rows of a topic of a file that is being read.
ghost use Rattle.std.specs.Prelude.{◌≡◌, [], ◌∷◌, ◌++◌, if◌then◌else◌, length, not, IfOk, OnErr};
ghost use Rattle.file_rows.specs.Grouped.{stands_in};

use crate::value::RowValue;
use crate::valued_rows::ValuedRows;
use name_table::DistinctNames;
use std::alloc::{AllocError, Global};
use std::marker::Model;

// A topic that is not the first of a file has room for so many rows from its first on,
const LEAST_ROWS: usize = 16;
// and for so many bytes of their names.
const LEAST_BYTES: usize = 256;

/// Documents that differ, with their values, in the order of the file. A document that comes again is found as its row is put.
#[derive(Drop)]
pub struct DistinctRows<V: RowValue> {
    documents: DistinctNames,
    values: Vec<V>,
}

impl<V: RowValue> Model for DistinctRows<V> {
    ghost use Rattle.std.specs.Prelude.{◌≡◌, List, length, map};
    ghost use Rattle.file_rows.specs.Grouped.{Valued};
    ghost use Rattle.file_rows.specs.Names.{valued_in};

    ghost Value = { List Valued };

    ghost view = { λ r. valued_in r.documents (map V.number r.values.items) };

    ghost invariant = { λ r. length r.documents ≡ length r.values.items };
}

impl<V: RowValue> DistinctRows<V> {
    /// No document. It takes no memory.
    pub fn new(alloc: Global) -> DistinctRows<V>
        ensures { result ≡ [] }
    {
        DistinctRows {
            documents: DistinctNames::new(alloc),
            values: Vec::new(alloc),
        }
    }

    /// No document, and room for as many as other rows have, with their names, and for 16 at least: in a file whose rows go from topic to
    /// topic the other rows are one row when this topic begins. It fails only where memory runs out.
    pub fn with_room_of(
        alloc: Global,
        other: &DistinctRows<V>,
    ) -> Result<DistinctRows<V>, AllocError>
        ensures { IfOk result (λ rows. rows ≡ []) }
    {
        let count = other.values.len().max(LEAST_ROWS);
        let name_bytes = other.documents.name_bytes().max(LEAST_BYTES);
        let documents = DistinctNames::with_room(alloc, count, name_bytes)?;
        Ok(DistinctRows {
            documents,
            values: Vec::with_capacity(alloc, count)?,
        })
    }

    /// How many documents there are.
    pub fn len(&self) -> usize
        ensures { result ≡ length self.now }
    {
        self.values.len()
    }

    /// Whether a document is there.
    pub fn contains(&self, document: &[u8]) -> bool
        ensures { result ≡ stands_in document.now self.now }
    {
        self.documents.place(document).is_some()
    }

    /// Puts a document at the end where it is not there yet, and answers whether it was not. It fails only where memory runs out, there
    /// are 4,294,967,294 documents, or all names would have 4,294,967,296 bytes together, and then changes nothing.
    pub fn insert(&mut self, alloc: Global, document: &[u8], value: V) -> Result<bool, AllocError>
        ensures new { IfOk result (λ is_new. is_new ≡ not (stands_in document.now self.old)) }
        ensures rows { IfOk result (λ is_new. self.new ≡ (if is_new then self.old ++
            record { document = document.now; value = V.number value } ∷ [] else self.old)) }
        ensures unchanged { OnErr result (self.new ≡ self.old) }
    {
        self.values.reserve(1)?;
        let (_, is_new) = self.documents.insert(alloc, document)?;
        if !is_new {
            return Ok(false);
        }
        self.values.push_reserved(value);
        Ok(true)
    }

    /// The rows alone, in which no document is searched.
    pub fn into_rows(self) -> ValuedRows<V>
        ensures { result ≡ self }
    {
        let DistinctRows { documents, values } = self;
        ValuedRows::of(documents.into_names(), values)
    }
}
