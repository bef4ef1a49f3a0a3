// Where names are found by hash.
ghost use Rattle.std.specs.Prelude.{◌≡◌, ◌+◌, ◌*◌, ◌^◌, ◌<◌, ◌≤◌, ◌∷◌, ◌++◌, ℕ, List, [], map, length, position, set, IfSome, IfNone, IfOk, OnOk, OnErr};
ghost use Rattle.std.specs.Str.{bytes_eq};
ghost use Rattle.name_table.specs.Table.{hash_of, start_of, name_at, AreDifferent, AreTaken, IsFree};
ghost use Rattle.name_table.specs.Finds.{Finds, FindsAll, IsEndOf};

use crate::by_name::NumbersByName;
use crate::names::Names;
use std::alloc::{AllocError, Global};

// How many slots, from the first that its hash names on, a name may stand in.
const REACH: usize = 8;

// The least number of slots beside those of the last reach.
const LEAST_SLOTS: usize = 16;

// The number of a name, counted from 1, and its hash. In an empty slot the number is 0.
#[derive(Clone, Copy)]
pub struct Slot {
    pub hash: u32,
    pub number: u32,
}

const EMPTY: Slot = Slot { hash: 0, number: 0 };

// Where a search through the slots within reach ends.
pub enum SearchEnd {
    // At the name, which has this number.
    Found(usize),
    // At this slot, the first empty one.
    Vacant(usize),
    // Behind the last of them, which are all taken by other names.
    Beyond,
}

// A name stands in the first empty slot within reach of the one that its hash names. Where none of these is empty, it is kept by name.
// So no search looks at more slots than that, whatever the names are.
#[derive(Drop)]
pub struct NameTable {
    pub slots: Vec<Slot>,
    pub rest: NumbersByName,
    // How many slots are taken.
    taken: usize,
}

impl NameTable {
    // A table of no name. It takes no memory.
    pub(crate) fn new(alloc: Global) -> NameTable
        ensures { Finds [] 0 result }
    {
        NameTable {
            slots: Vec::new(alloc),
            rest: NumbersByName::new(alloc),
            taken: 0,
        }
    }

    // A table of no name, with room for some.
    pub(crate) fn with_room(alloc: Global, names: usize) -> Result<NameTable, AllocError>
        ensures table { IfOk result (λ table. (names : List (List ℕ)) → AreDifferent names →
            Finds names 0 table) }
        ensures room { IfOk result (λ table. REACH < length table.slots.items) }
    {
        let slots = slots_for(names)?;
        Ok(NameTable {
            slots: vec![in alloc; EMPTY; slots + REACH]?,
            rest: NumbersByName::new(alloc),
            taken: 0,
        })
    }

    // The number of a name among those of the table.
    pub(crate) fn find<N: Names>(&self, names: &N, name: &[u8], hash: u32) -> Option<usize>
        requires table { FindsAll (N.names names.now) self.now }
        requires hash { hash ≡ hash_of name.now }
        ensures { result ≡ position (bytes_eq name.now) (N.names names.now) }
    {
        if names.count() == 0 {
            return None;
        }
        match self.search(names, name, hash) {
            SearchEnd::Found(i) => Some(i),
            SearchEnd::Vacant(_) => None,
            SearchEnd::Beyond => self.rest.get(name),
        }
    }

    // The number of a name among those of the table. A name that is not there is entered behind them. It fails only where memory runs
    // out, and then changes nothing.
    pub(crate) fn find_or_enter<N: Names>(
        &mut self,
        alloc: Global,
        names: &N,
        name: &[u8],
        hash: u32,
    ) -> Result<Option<usize>, AllocError>
        requires table { FindsAll (N.names names.now) self.old }
        requires room { REACH < length self.old.slots.items }
        requires hash { hash ≡ hash_of name.now }
        requires fits { length (N.names names.now) + 1 < 2 ^ 32 }
        ensures number { IfOk result (λ found. found ≡
            position (bytes_eq name.now) (N.names names.now)) }
        ensures found { IfOk result (λ found.
            IfSome found (λ _. FindsAll (N.names names.now) self.new)) }
        ensures entered { IfOk result (λ found.
            IfNone found (Finds (N.names names.now ++ name.now ∷ []) (length (N.names names.now) + 1)
            self.new)) }
        ensures unchanged { OnErr result (self.new ≡ self.old) }
    {
        let i = names.count();
        match self.search(names, name, hash) {
            SearchEnd::Found(found) => Ok(Some(found)),
            SearchEnd::Vacant(at) => {
                self.fill(at, hash, i);
                Ok(None)
            }
            SearchEnd::Beyond => {
                let number = self.rest.number_or_put(alloc, name, i as u32)?;
                if number < i {
                    Ok(Some(number))
                } else {
                    Ok(None)
                }
            }
        }
    }

    // Enters name `i`, which is not there yet. It fails only where memory runs out, and then changes nothing.
    pub(crate) fn enter(
        &mut self,
        alloc: Global,
        name: &[u8],
        hash: u32,
        i: usize,
    ) -> Result<(), AllocError>
        requires room { REACH < length self.old.slots.items }
        requires hash { hash ≡ hash_of name.now }
        requires fits { i + 1 < 2 ^ 32 }
        ensures ok { OnOk result ((names : List (List ℕ)) → i < length names →
            name_at names i ≡ name.now → Finds names i self.old → Finds names (i + 1) self.new) }
        ensures room { length self.new.slots.items ≡ length self.old.slots.items }
        ensures err { OnErr result (self.new ≡ self.old) }
    {
        match self.free(hash) {
            Some(at) => self.fill(at, hash, i),
            None => {
                self.rest.number_or_put(alloc, name, i as u32)?;
            }
        }
        Ok(())
    }

    // Makes room for one more name, so that at most half of the slots are taken. The names that are kept by name do not count, so that
    // they are seldom entered anew.
    pub(crate) fn make_room<N: Names>(
        &mut self,
        alloc: Global,
        names: &N,
        hashes: &[u32],
    ) -> Result<(), AllocError>
        requires table { FindsAll (N.names names.now) self.old }
        requires hashes { hashes.now ≡ map hash_of (N.names names.now) }
        ensures table { FindsAll (N.names names.now) self.new }
        ensures room { OnOk result (REACH < length self.new.slots.items) }
        ensures fits { OnOk result (length (N.names names.now) + 1 < 2 ^ 32) }
    {
        if names.count() >= MOST_NAMES {
            return Err(AllocError);
        }
        if self.slots.len() <= REACH || self.taken >= (self.slots.len() - REACH) / 2 {
            *self = built(alloc, names, hashes)?;
        }
        Ok(())
    }

    // Where a search for a name ends.
    pub(crate) fn search<N: Names>(&self, names: &N, name: &[u8], hash: u32) -> SearchEnd
        requires table { FindsAll (N.names names.now) self.now }
        requires room { REACH < length self.now.slots.items }
        requires hash { hash ≡ hash_of name.now }
        ensures { IsEndOf (N.names names.now) self.now name.now result }
    {
        let start = self.start(hash);
        for at in start..start + REACH {
            let slot = self.slots[at];
            if slot.number == 0 {
                return SearchEnd::Vacant(at);
            }
            if slot.hash == hash {
                let i = slot.number as usize - 1;
                if names.name(i) == name {
                    return SearchEnd::Found(i);
                }
            }
        }
        SearchEnd::Beyond
    }

    // Fills an empty slot with name `i`.
    pub(crate) fn fill(&mut self, at: usize, hash: u32, i: usize)
        requires within { at < length self.old.slots.items }
        requires fits { i + 1 < 2 ^ 32 }
        ensures slots { self.new.slots.items ≡
            set self.old.slots.items at (record { hash = hash; number = i + 1 }) }
        ensures rest { self.new.rest ≡ self.old.rest }
    {
        self.slots[at] = Slot {
            hash,
            number: i as u32 + 1,
        };
        self.taken = self.taken.saturating_add(1);
    }

    // The first slot where a name of this hash may stand.
    fn start(&self, hash: u32) -> usize
        requires { REACH < length self.now.slots.items }
        ensures start { result ≡ start_of self.now.slots.items hash }
        ensures within { result + REACH < length self.now.slots.items }
    {
        hash as usize & (self.slots.len() - REACH - 1)
    }

    // The first empty slot where a name of this hash may stand.
    fn free(&self, hash: u32) -> Option<usize>
        requires { REACH < length self.now.slots.items }
        ensures free { IfSome result (λ at. IsFree self.now.slots.items hash at) }
        ensures taken { IfNone result
            (AreTaken self.now.slots.items (start_of self.now.slots.items hash)
            (start_of self.now.slots.items hash + REACH)) }
    {
        let start = self.start(hash);
        for at in start..start + REACH {
            if self.slots[at].number == 0 {
                return Some(at);
            }
        }
        None
    }
}

// The most names that a table may have.
const MOST_NAMES: usize = 0xFFFF_FFFE;

// How many slots so many names are given: a power of two, of which at most half are taken.
fn slots_for(names: usize) -> Result<usize, AllocError>
    ensures { IfOk result (λ slots. (0 < slots) × (slots < 2 ^ 40)) }
{
    if names > MOST_NAMES {
        return Err(AllocError);
    }
    let mut slots = LEAST_SLOTS;
    while slots < 2 * names {
        slots *= 2;
    }
    Ok(slots)
}

// A table of all names, with room for as many more.
fn built<N: Names>(alloc: Global, names: &N, hashes: &[u32]) -> Result<NameTable, AllocError>
    requires different { AreDifferent (N.names names.now) }
    requires hashes { hashes.now ≡ map hash_of (N.names names.now) }
    requires fits { length (N.names names.now) + 1 < 2 ^ 32 }
    ensures table { IfOk result (λ table. FindsAll (N.names names.now) table) }
    ensures room { IfOk result (λ table. REACH < length table.slots.items) }
{
    let mut table = NameTable::with_room(alloc, 2 * names.count())?;
    for i in 0..names.count() {
        table.enter(alloc, names.name(i), hashes[i], i)?;
    }
    Ok(table)
}
