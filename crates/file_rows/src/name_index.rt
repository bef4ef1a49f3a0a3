// Borrowed names that differ, in the order in which they came.
ghost use Rattle.std.specs.Prelude.{◌≡◌, ◌<◌, [], length, position, is_some, not, slice_get, Some, IfOk, OnOk, OnErr};
ghost use Rattle.std.specs.List.{list_any};
ghost use Rattle.std.specs.Str.{bytes_eq};
ghost use Rattle.indexmap.specs.IndexSet.{insert_key};

use crate::keys::BorrowedKey;
use name_table::NamedSet;
use std::alloc::{AllocError, Global};
use std::marker::Model;

/// A list of names that stand elsewhere, which is searched by name. Names are numbered from 0 in the order in which they were
/// first added.
#[derive(Drop)]
pub struct NameIndex<'a> {
    alloc: Global,
    names: NamedSet<BorrowedKey<'a>>,
}

impl<'a> Model for NameIndex<'a> {
    ghost use Rattle.std.specs.Prelude.{List, ℕ};

    ghost Value = { List (List ℕ) };

    ghost view = { λ s. s.names };
}

impl<'a> NameIndex<'a> {
    /// No name. It takes no memory.
    pub fn new(alloc: Global) -> NameIndex<'a>
        ensures { result ≡ [] }
    {
        NameIndex {
            alloc,
            names: NamedSet::new(alloc),
        }
    }

    /// How many names there are.
    pub fn len(&self) -> usize
        ensures { result ≡ length self.now }
    {
        self.names.len()
    }

    /// The number of a name, or `None` where it is not there.
    pub fn place(&self, name: &[u8]) -> Option<usize>
        ensures place { result ≡ position (bytes_eq name.now) self.now }
        ensures found { is_some result ≡ list_any (bytes_eq name.now) self.now }
    {
        self.names.place(name)
    }

    /// Name `i`.
    pub fn get(&self, i: usize) -> &'a [u8]
        requires { i < length self.now }
        ensures { slice_get self.now i ≡ Some result.now }
    {
        self.names.get(i).bytes
    }

    /// Puts a name at the end where it is not there yet, and answers whether it was not. It fails only where memory runs
    /// out, and then changes nothing.
    pub fn add(&mut self, name: &'a [u8]) -> Result<bool, AllocError>
        ensures new { IfOk result (λ is_new. is_new ≡ not (list_any (bytes_eq name.now) self.old)) }
        ensures names { OnOk result (self.new ≡ insert_key bytes_eq self.old name.now) }
        ensures unchanged { OnErr result (self.new ≡ self.old) }
    {
        let (_, is_new) = self.names.insert(self.alloc, BorrowedKey { bytes: name })?;
        Ok(is_new)
    }

    /// The number of a name, which is put at the end where it is not there yet. It fails only where memory runs out, and
    /// then changes nothing.
    pub fn number(&mut self, name: &'a [u8]) -> Result<usize, AllocError>
        ensures number { IfOk result (λ i. position (bytes_eq name.now) self.new ≡ Some i) }
        ensures names { OnOk result (self.new ≡ insert_key bytes_eq self.old name.now) }
        ensures unchanged { OnErr result (self.new ≡ self.old) }
    {
        let (i, _) = self.names.insert(self.alloc, BorrowedKey { bytes: name })?;
        Ok(i)
    }
}
