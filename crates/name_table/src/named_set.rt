// What has a name, each name once.
ghost use Rattle.std.specs.Prelude.{◌≡◌, ◌<◌, [], ◌∷◌, ◌++◌, false, length, position, is_some, not, slice_get, Some, IfOk, OnOk, OnErr};
ghost use Rattle.std.specs.List.{list_any};
ghost use Rattle.std.specs.Str.{bytes_eq};
ghost use Rattle.indexmap.specs.IndexSet.{insert_key};
ghost use Rattle.name_table.specs.Table.{hash_of};

use crate::hash::hash;
use crate::named::Named;
use crate::table::NameTable;
use std::alloc::{AllocError, Global};
use std::marker::Model;

/// What has a name, each name once, in the order of insertion. It is seen as the list of the names, which are numbered from 0. A search
/// looks at a bounded number of slots by hash and then goes by the order of names, so that no names are slow to find.
#[derive(Drop)]
pub struct NamedSet<K: Named> {
    keys: Vec<K>,
    // The hash of each name.
    hashes: Vec<u32>,
    table: NameTable,
}

impl<K: Named> Model for NamedSet<K> {
    ghost use Rattle.std.specs.Prelude.{List, ℕ, map};
    ghost use Rattle.name_table.specs.Finds.{AreFound};

    ghost Value = { List (List ℕ) };

    ghost view = { λ s. map K.name s.keys.items };

    ghost invariant = { λ s. AreFound (map K.name s.keys.items) s.hashes.items s.table };
}

impl<K: Named> NamedSet<K> {
    /// No name. It takes no memory.
    pub fn new(alloc: Global) -> NamedSet<K>
        ensures { result ≡ [] }
    {
        NamedSet {
            keys: Vec::new(alloc),
            hashes: Vec::new(alloc),
            table: NameTable::new(alloc),
        }
    }

    /// No name, and room for some. It fails only where memory runs out.
    pub fn with_room(alloc: Global, names: usize) -> Result<NamedSet<K>, AllocError>
        ensures { IfOk result (λ set. set ≡ []) }
    {
        let table = NameTable::with_room(alloc, names)?;
        let hashes = Vec::with_capacity(alloc, names)?;
        Ok(NamedSet {
            keys: Vec::with_capacity(alloc, names)?,
            hashes,
            table,
        })
    }

    /// How many names there are.
    pub fn len(&self) -> usize
        ensures { result ≡ length self.now }
    {
        self.keys.len()
    }

    /// The number of a name, or `None` where it is not there.
    pub fn place(&self, name: &[u8]) -> Option<usize>
        ensures place { result ≡ position (bytes_eq name.now) self.now }
        ensures found { is_some result ≡ list_any (bytes_eq name.now) self.now }
    {
        self.found(name, hash(name))
    }

    /// What has number `i`.
    pub fn get(&self, i: usize) -> &K
        requires { i < length self.now }
        ensures { slice_get self.now i ≡ Some (K.name result.now) }
    {
        &self.keys[i]
    }

    // The number of a name of this hash.
    fn found(&self, name: &[u8], hash: u32) -> Option<usize>
        requires { hash ≡ hash_of name.now }
        ensures place { result ≡ position (bytes_eq name.now) self.now }
        ensures found { is_some result ≡ list_any (bytes_eq name.now) self.now }
    {
        self.table.find(&self.keys, name, hash)
    }
}

impl<K: Named + Drop> NamedSet<K> {
    /// Puts a key at the end where its name is not there yet, and answers the number of the name and whether it was not there. It
    /// fails only where memory runs out or there are 4,294,967,294 names, and then changes nothing.
    pub fn insert(&mut self, alloc: Global, key: K) -> Result<(usize, bool), AllocError>
        ensures number { IfOk result (λ r. position (bytes_eq (K.name key)) self.new ≡ Some r.0) }
        ensures new { IfOk result (λ r. r.1 ≡ not (list_any (bytes_eq (K.name key)) self.old)) }
        ensures names { OnOk result (self.new ≡ insert_key bytes_eq self.old (K.name key)) }
        ensures unchanged { OnErr result (self.new ≡ self.old) }
    {
        let i = self.keys.len();
        let hash = hash(key.bytes());
        self.keys.reserve(1)?;
        self.hashes.reserve(1)?;
        self.table.make_room(alloc, &self.keys, &self.hashes)?;
        match self
            .table
            .find_or_enter(alloc, &self.keys, key.bytes(), hash)?
        {
            Some(found) => Ok((found, false)),
            None => {
                self.keys.push_reserved(key);
                self.hashes.push_reserved(hash);
                Ok((i, true))
            }
        }
    }

    /// Puts a key at the end whose name is not there yet. It fails where `insert` does, and then changes nothing.
    pub fn push(&mut self, alloc: Global, key: K) -> Result<(), AllocError>
        requires { list_any (bytes_eq (K.name key)) self.old ≡ false }
        ensures names { OnOk result (self.new ≡ self.old ++ K.name key ∷ []) }
        ensures unchanged { OnErr result (self.new ≡ self.old) }
    {
        self.insert(alloc, key)?;
        Ok(())
    }
}
