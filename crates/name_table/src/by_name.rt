// Numbers by name.
ghost use Rattle.std.specs.Prelude.{◌≡◌, [], false, ℕ, List, Some, IfOk, OnOk, OnErr, unwrap_or};
ghost use Rattle.std.specs.BTreeMap.{get, insert_entry};
ghost use Rattle.std.specs.Cmp.Lexicographic.{slice_cmp};
ghost use Rattle.std.specs.Ordering.{nat_cmp};
ghost use Rattle.std.specs.Str.{bytes_eq};
ghost use Rattle.name_table.specs.Table.{number_in};

use std::alloc::{AllocError, Global};
use std::collections::BTreeMap;
use std::marker::Model;

// Numbers of names, kept in the order of the names: a search takes as many steps for any names.
#[derive(Drop)]
pub struct NumbersByName {
    numbers: BTreeMap<Vec<u8>, u32>,
}

impl Model for NumbersByName {
    ghost use Rattle.std.specs.Prelude.{List, ℕ, map};

    ghost Value = { List (List ℕ × ℕ) };

    ghost view = { λ s. map (λ entry. (entry.0.items, entry.1)) s.numbers.entries };
}

impl NumbersByName {
    // No name. It takes no memory.
    pub(crate) fn new(alloc: Global) -> NumbersByName
        ensures { result ≡ [] }
    {
        NumbersByName {
            numbers: BTreeMap::new(alloc),
        }
    }

    // The number of a name, where it is there.
    pub(crate) fn get(&self, name: &[u8]) -> Option<usize>
        ensures { result ≡ number_in name.now self.now }
    {
        match self.numbers.get(name) {
            Some(number) => Some(*number as usize),
            None => None,
        }
    }

    // The number of a name, which is given this one where it has none. It fails only where memory runs out, and then changes nothing.
    pub(crate) fn number_or_put(
        &mut self,
        alloc: Global,
        name: &[u8],
        number: u32,
    ) -> Result<usize, AllocError>
        ensures number { IfOk result (λ i. i ≡ unwrap_or (number_in name.now self.old) number) }
        ensures put { IfOk result (λ i. number_in name.now self.new ≡ Some i) }
        ensures others { OnOk result ((other : List ℕ) → bytes_eq name.now other ≡ false →
            number_in other self.new ≡ number_in other self.old) }
        ensures unchanged { OnErr result (self.new ≡ self.old) }
    {
        let key = Vec::from_slice(alloc, name)?;
        let found = given(&mut self.numbers, key, number)?;
        Ok(found as usize)
    }
}

// The number of a key, which is given this one where it has none.
fn given(numbers: &mut BTreeMap<Vec<u8>, u32>, key: Vec<u8>, number: u32) -> Result<u32, AllocError>
    ensures number { IfOk result (λ i. i ≡
        unwrap_or (get (λ x y. slice_cmp nat_cmp x.items y.items) numbers.old key) number) }
    ensures entries { IfOk result (λ i. numbers.new.entries ≡
        insert_entry (λ x y. slice_cmp nat_cmp x.items y.items) numbers.old.entries key i) }
    ensures unchanged { OnErr result (numbers.new.entries ≡ numbers.old.entries) }
{
    Ok(*numbers.entry(key)?.or_insert(number))
}
