// The rows of a topic.
ghost use Rattle.std.specs.Prelude.{◌≡◌, ◌<◌, [], length, map, option_map, slice_get, Some};
ghost use Rattle.file_rows.specs.Grouped.{bytes_in};
ghost use Rattle.file_rows.specs.Names.{valued_in};

use crate::value::RowValue;
use name_table::NumberedNames;
use std::alloc::Global;
use std::marker::Model;

/// Documents with their values, in the order of the file. They are numbered from 0.
#[derive(Drop)]
pub struct ValuedRows<V: RowValue> {
    documents: NumberedNames,
    values: Vec<V>,
}

impl<V: RowValue> Model for ValuedRows<V> {
    ghost use Rattle.std.specs.Prelude.{◌≡◌, List, length, map};
    ghost use Rattle.file_rows.specs.Grouped.{Valued};
    ghost use Rattle.file_rows.specs.Names.{valued_in};

    ghost Value = { List Valued };

    ghost view = { λ r. valued_in r.documents (map V.number r.values.items) };

    ghost invariant = { λ r. length r.documents ≡ length r.values.items };
}

impl<V: RowValue> ValuedRows<V> {
    /// No document. It takes no memory.
    pub fn new(alloc: Global) -> ValuedRows<V>
        ensures { result ≡ [] }
    {
        ValuedRows {
            documents: NumberedNames::new(alloc),
            values: Vec::new(alloc),
        }
    }

    // Documents and their values.
    pub(crate) fn of(documents: NumberedNames, values: Vec<V>) -> ValuedRows<V>
        requires { length documents ≡ length values.items }
        ensures { result ≡ valued_in documents (map V.number values.items) }
    {
        ValuedRows { documents, values }
    }

    /// How many documents there are.
    pub fn len(&self) -> usize
        ensures { result ≡ length self.now }
    {
        self.values.len()
    }

    /// The bytes of the names of all documents together.
    pub fn name_bytes(&self) -> usize
        ensures { result ≡ bytes_in self.now }
    {
        self.documents.name_bytes()
    }

    /// The name of document `i`.
    pub fn document(&self, i: usize) -> &[u8]
        requires { i < length self.now }
        ensures { option_map (λ d. d.document) (slice_get self.now i) ≡ Some result.now }
    {
        self.documents.get(i)
    }

    /// The documents, in their order.
    pub fn documents(&self) -> &NumberedNames
        ensures { result.now ≡ map (λ d. d.document) self.now }
    {
        &self.documents
    }

    /// The value of document `i`.
    pub fn value(&self, i: usize) -> &V
        requires { i < length self.now }
        ensures { option_map (λ d. d.value) (slice_get self.now i) ≡ Some (V.number result.now) }
    {
        &self.values[i]
    }
}
