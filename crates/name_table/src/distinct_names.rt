// Names that differ, in one row of bytes.
ghost use Rattle.std.specs.Prelude.{◌≡◌, ◌+◌, ◌^◌, ◌<◌, [], ◌∷◌, ◌++◌, false, length, sum_by, position, is_some, not, slice_get, Some, IfSome, IfNone, IfOk, OnOk, OnErr};
ghost use Rattle.std.specs.List.{list_any};
ghost use Rattle.std.specs.Str.{bytes_eq};
ghost use Rattle.indexmap.specs.IndexSet.{insert_key};
ghost use Rattle.name_table.specs.Finds.{FindsAll, IsEndOf};
ghost use Rattle.name_table.specs.Table.{hash_of};
ghost use Rattle.name_table.specs.declared.table.TheConstants.{REACH};

use crate::hash::hash;
use crate::numbered_names::NumberedNames;
use crate::table::{NameTable, SearchEnd};
use std::alloc::{AllocError, Global};
use std::marker::Model;

// The most bytes that all names may have together.
const MOST_BYTES: usize = 0xFFFF_FFFF;

/// Names that differ, in the order of insertion, kept one behind the other in one row of bytes. They are numbered from 0. A search looks
/// at a bounded number of slots by hash and then goes by the order of names, so that no names are slow to find.
#[derive(Drop)]
pub struct DistinctNames {
    names: NumberedNames,
    // The hash of each name.
    hashes: Vec<u32>,
    table: NameTable,
}

impl Model for DistinctNames {
    ghost use Rattle.std.specs.Prelude.{List, ℕ};
    ghost use Rattle.name_table.specs.Finds.{AreFound};

    ghost Value = { List (List ℕ) };

    ghost view = { λ s. s.names };

    ghost invariant = { λ s. AreFound s.names s.hashes.items s.table };
}

impl DistinctNames {
    /// No name. It takes no memory.
    pub fn new(alloc: Global) -> DistinctNames
        ensures { result ≡ [] }
    {
        DistinctNames {
            names: NumberedNames::new(alloc),
            hashes: Vec::new(alloc),
            table: NameTable::new(alloc),
        }
    }

    /// No name, and room for some names of so many bytes together. It fails only where memory runs out.
    pub fn with_room(
        alloc: Global,
        names: usize,
        name_bytes: usize,
    ) -> Result<DistinctNames, AllocError>
        ensures { IfOk result (λ set. set ≡ []) }
    {
        let table = NameTable::with_room(alloc, names)?;
        let hashes = Vec::with_capacity(alloc, names)?;
        Ok(DistinctNames {
            names: NumberedNames::with_room(alloc, names, name_bytes)?,
            hashes,
            table,
        })
    }

    /// How many names there are.
    pub fn len(&self) -> usize
        ensures { result ≡ length self.now }
    {
        self.names.len()
    }

    /// How many bytes all names have together.
    pub fn name_bytes(&self) -> usize
        ensures { result ≡ sum_by length self.now }
    {
        self.names.name_bytes()
    }

    /// Name `i`.
    pub fn get(&self, i: usize) -> &[u8]
        requires { i < length self.now }
        ensures { slice_get self.now i ≡ Some result.now }
    {
        self.names.get(i)
    }

    /// The number of a name, or `None` where it is not there.
    pub fn place(&self, name: &[u8]) -> Option<usize>
        ensures place { result ≡ position (bytes_eq name.now) self.now }
        ensures found { is_some result ≡ list_any (bytes_eq name.now) self.now }
    {
        self.table.find(&self.names, name, hash(name))
    }

    /// The names alone, which are no longer searched.
    pub fn into_names(self) -> NumberedNames
        ensures { result ≡ self }
    {
        let DistinctNames {
            names,
            hashes: _,
            table: _,
        } = self;
        names
    }

    /// Puts a copy of a name at the end where it is not there yet, and answers the number of the name and whether it was not there. It
    /// fails only where memory runs out, there are 4,294,967,294 names, or all would have 4,294,967,296 bytes together, and then
    /// changes nothing.
    pub fn insert(&mut self, alloc: Global, name: &[u8]) -> Result<(usize, bool), AllocError>
        ensures number { IfOk result (λ r. position (bytes_eq name.now) self.new ≡ Some r.0) }
        ensures new { IfOk result (λ r. r.1 ≡ not (list_any (bytes_eq name.now) self.old)) }
        ensures names { OnOk result (self.new ≡ insert_key bytes_eq self.old name.now) }
        ensures unchanged { OnErr result (self.new ≡ self.old) }
    {
        if self.names.name_bytes().saturating_add(name.len()) > MOST_BYTES {
            return Err(AllocError);
        }
        let i = self.names.len();
        let hash = hash(name);
        self.hashes.reserve(1)?;
        self.table.make_room(alloc, &self.names, &self.hashes)?;
        match found_or_pushed(alloc, &mut self.names, &mut self.table, name, hash)? {
            Some(found) => Ok((found, false)),
            None => {
                self.hashes.push_reserved(hash);
                Ok((i, true))
            }
        }
    }

    /// Puts a copy of a name at the end that is not there yet. It fails where `insert` does, and then changes nothing.
    pub fn push(&mut self, alloc: Global, name: &[u8]) -> Result<(), AllocError>
        requires { list_any (bytes_eq name.now) self.old ≡ false }
        ensures names { OnOk result (self.new ≡ self.old ++ name.now ∷ []) }
        ensures unchanged { OnErr result (self.new ≡ self.old) }
    {
        self.insert(alloc, name)?;
        Ok(())
    }
}

// The number of a name. One that is not there is put at the end, and entered in the table. It fails only where memory runs out, and
// then changes nothing.
fn found_or_pushed(
    alloc: Global,
    names: &mut NumberedNames,
    table: &mut NameTable,
    name: &[u8],
    hash: u32,
) -> Result<Option<usize>, AllocError>
    requires table { FindsAll names.old table.old }
    requires room { REACH < length table.old.slots.items }
    requires hash { hash ≡ hash_of name.now }
    requires fits { length names.old + 1 < 2 ^ 32 }
    requires bytes { sum_by length names.old + length name.now < 2 ^ 32 }
    ensures number { IfOk result (λ found. found ≡ position (bytes_eq name.now) names.old) }
    ensures found { IfOk result (λ found. IfSome found (λ _. names.new ≡ names.old)) }
    ensures pushed { IfOk result (λ found.
        IfNone found (names.new ≡ names.old ++ name.now ∷ [])) }
    ensures table { FindsAll names.new table.new }
    ensures unchanged { OnErr result (names.new ≡ names.old) }
{
    match table.search(names, name, hash) {
        SearchEnd::Found(found) => Ok(Some(found)),
        SearchEnd::Vacant(at) => {
            let i = names.len();
            names.push(name)?;
            table.fill(at, hash, i);
            Ok(None)
        }
        SearchEnd::Beyond => pushed_by_name(alloc, names, table, name),
    }
}

// The same for a name that no slot has, where all within its reach are taken: it is found and entered by name.
fn pushed_by_name(
    alloc: Global,
    names: &mut NumberedNames,
    table: &mut NameTable,
    name: &[u8],
) -> Result<Option<usize>, AllocError>
    requires table { FindsAll names.old table.old }
    requires room { REACH < length table.old.slots.items }
    requires beyond { IsEndOf names.old table.old name.now SearchEnd.Beyond }
    requires fits { length names.old + 1 < 2 ^ 32 }
    requires bytes { sum_by length names.old + length name.now < 2 ^ 32 }
    ensures number { IfOk result (λ found. found ≡ position (bytes_eq name.now) names.old) }
    ensures found { IfOk result (λ found. IfSome found (λ _. names.new ≡ names.old)) }
    ensures pushed { IfOk result (λ found.
        IfNone found (names.new ≡ names.old ++ name.now ∷ [])) }
    ensures table { FindsAll names.new table.new }
    ensures unchanged { OnErr result (names.new ≡ names.old) }
{
    let i = names.len();
    names.push(name)?;
    match table.rest.number_or_put(alloc, name, i as u32) {
        Ok(number) => {
            if number < i {
                names.take_last();
                Ok(Some(number))
            } else {
                Ok(None)
            }
        }
        Err(e) => {
            names.take_last();
            Err(e)
        }
    }
}
