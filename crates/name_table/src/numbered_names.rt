// Names in one row of bytes.
ghost use Rattle.std.specs.Prelude.{◌≡◌, ◌+◌, ◌^◌, ◌<◌, [], ◌∷◌, ◌++◌, length, sum_by, slice_get, slice_range, take, ◌-◌, ◌≤◌, Some, IfOk, OnOk, OnErr};
ghost use Rattle.name_table.specs.Cut.{start_at};

use std::alloc::{AllocError, Global};
use std::marker::Model;

/// A list of names, kept one behind the other in one row of bytes. Names are numbered from 0.
#[derive(Drop)]
pub struct NumberedNames {
    bytes: Vec<u8>,
    ends: Vec<u32>,
}

impl Model for NumberedNames {
    ghost use Rattle.std.specs.Prelude.{List, ℕ};
    ghost use Rattle.name_table.specs.Cut.{cut, IsCut};

    ghost Value = { List (List ℕ) };

    ghost view = { λ n. cut 0 n.ends.items n.bytes.items };

    ghost invariant = { λ n. IsCut 0 n.ends.items n.bytes.items };
}

impl NumberedNames {
    /// No name. It takes no memory.
    pub fn new(alloc: Global) -> NumberedNames
        ensures { result ≡ [] }
    {
        NumberedNames {
            bytes: Vec::new(alloc),
            ends: Vec::new(alloc),
        }
    }

    /// No name, and room for some names of so many bytes together. It fails only where memory runs out.
    pub fn with_room(
        alloc: Global,
        names: usize,
        name_bytes: usize,
    ) -> Result<NumberedNames, AllocError>
        ensures { IfOk result (λ names. names ≡ []) }
    {
        Ok(NumberedNames {
            bytes: Vec::with_capacity(alloc, name_bytes)?,
            ends: Vec::with_capacity(alloc, names)?,
        })
    }

    /// How many names there are.
    pub fn len(&self) -> usize
        ensures { result ≡ length self.now }
    {
        self.ends.len()
    }

    /// A copy, in no more room than the names take. It fails only where memory runs out.
    pub fn packed(&self, alloc: Global) -> Result<NumberedNames, AllocError>
        ensures { IfOk result (λ packed. packed ≡ self.now) }
    {
        Ok(NumberedNames {
            bytes: Vec::from_slice(alloc, &self.bytes)?,
            ends: Vec::from_slice(alloc, &self.ends)?,
        })
    }

    /// How many bytes all names have together.
    pub fn name_bytes(&self) -> usize
        ensures { result ≡ sum_by length self.now }
    {
        self.bytes.len()
    }

    /// Name `i`.
    pub fn get(&self, i: usize) -> &[u8]
        requires { i < length self.now }
        ensures { slice_get self.now i ≡ Some result.now }
    {
        let start = start_of(&self.ends, i);
        let end = self.ends[i] as usize;
        part(&self.bytes, start, end)
    }

    /// Puts a copy of a name at the end. It fails only where memory runs out, and then changes nothing.
    pub fn push(&mut self, name: &[u8]) -> Result<(), AllocError>
        requires { sum_by length self.old + length name.now < 2 ^ 32 }
        ensures ok { OnOk result (self.new ≡ self.old ++ name.now ∷ []) }
        ensures err { OnErr result (self.new ≡ self.old) }
    {
        let end = (self.bytes.len() + name.len()) as u32;
        self.ends.reserve(1)?;
        self.bytes.extend_from_slice(name)?;
        self.ends.push_reserved(end);
        Ok(())
    }

    // Takes the last name away.
    pub(crate) fn take_last(&mut self)
        requires { 0 < length self.old }
        ensures { self.new ≡ take (length self.old - 1) self.old }
    {
        let last = self.ends.len() - 1;
        let start = start_of(&self.ends, last);
        self.ends.truncate(last);
        self.bytes.truncate(start);
    }
}

// Where a name begins.
fn start_of(ends: &[u32], i: usize) -> usize
    requires { i < length ends.now }
    ensures { result ≡ start_at 0 ends.now i }
{
    if i == 0 { 0 } else { ends[i - 1] as usize }
}

fn part(bytes: &[u8], start: usize, end: usize) -> &[u8]
    requires start { start ≤ end }
    requires end { end ≤ length bytes.now }
    ensures { result.now ≡ slice_range bytes.now start end }
{
    &bytes[start..end]
}
