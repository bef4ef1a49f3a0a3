// The rows of a sheet while it is read.
ghost use Rattle.std.specs.Prelude.{◌≡◌, ◌<◌, [], false, length, OnOk};
ghost use Rattle.sheet_merge.specs.Sheet.{IsSheetRow};
ghost use Rattle.sheet_merge.specs.Lines.{brings_too_many};
ghost use Rattle.sheet_merge.specs.Packed.{place_from, row_at};
ghost use Rattle.sheet_merge.specs.Table.{with_entry, AreGathered};

use crate::kept::KeptEntry;
use crate::key::PlaceKey;
use crate::limits::ENTRY_LIMIT;
use crate::row::RowRef;
use name_table::{Named, NamedSet};
use std::alloc::{AllocError, Global};
use std::marker::Model;

/// Rows with different places, in the order in which these first came, each with the greatest entry so far. They are numbered
/// from 0.
#[derive(Drop)]
pub struct EntryTable {
    places: NamedSet<PlaceKey>,
    entries: Vec<KeptEntry>,
}

impl Model for EntryTable {
    ghost use Rattle.std.specs.Prelude.{List};
    ghost use Rattle.sheet_merge.specs.Sheet.{SheetRow};
    ghost use Rattle.sheet_merge.specs.Packed.{placed_entries};
    ghost use Rattle.sheet_merge.specs.Table.{IsTable};

    ghost Value = { List SheetRow };

    ghost view = { λ t. placed_entries t.places t.entries.items };

    ghost invariant = { λ t. IsTable t.places t.entries.items };
}

impl EntryTable {
    /// No row. It takes no memory.
    pub fn new(alloc: Global) -> EntryTable
        ensures { result ≡ [] }
    {
        EntryTable {
            places: NamedSet::new(alloc),
            entries: Vec::new(alloc),
        }
    }

    /// How many rows there are.
    pub fn len(&self) -> usize
        ensures count { result ≡ length self.now }
        ensures gathered { AreGathered self.now }
    {
        self.entries.len()
    }

    /// Row `i`.
    pub fn get(&self, i: usize) -> RowRef<'_>
        requires { i < length self.now }
        ensures { result ≡ row_at self.now i }
    {
        let entry = &self.entries[i];
        RowRef::new(
            self.places.get(i).bytes(),
            entry.who(),
            entry.stamp(),
            entry.grade(),
        )
    }

    /// Whether a row of this place would be one too many.
    pub fn is_one_too_many(&self, place: &PlaceKey) -> bool
        ensures { result ≡ brings_too_many (place_from place.now) self.now }
    {
        self.entries.len() >= ENTRY_LIMIT && self.places.place(place.as_bytes()).is_none()
    }

    /// Puts an entry: at its place the greater one stands. It fails only where memory runs out.
    pub fn put(
        &mut self,
        alloc: Global,
        place: PlaceKey,
        entry: KeptEntry,
    ) -> Result<(), AllocError>
        requires right { IsSheetRow (place_from place, entry) }
        requires within { brings_too_many (place_from place) self.old ≡ false }
        ensures { OnOk result (self.new ≡ with_entry (place_from place, entry) self.old) }
    {
        self.entries.reserve(1)?;
        let _pair = place.as_bytes().len();
        let (i, is_new) = self.places.insert(alloc, place)?;
        if is_new {
            self.entries.push_reserved(entry);
        } else {
            self.entries[i].raise(entry);
        }
        Ok(())
    }
}
