// The rows of a sheet.
ghost use Rattle.std.specs.Prelude.{◌≡◌, ◌<◌, ◌≤◌, [], ◌∷◌, ◌++◌, length, IfOk, OnOk};
ghost use Rattle.sheet_merge.specs.Sheet.{IsSheetRow};
ghost use Rattle.sheet_merge.specs.Packed.{row_at};
ghost use Rattle.sheet_merge.specs.declared.limits.TheConstants.{ENTRY_LIMIT};

use crate::packed::PackedName;
use crate::pair::{first_name, second_name};
use crate::row::RowRef;
use crate::written::Written;
use name_table::NumberedNames;
use std::alloc::{AllocError, Global};
use std::marker::Model;

/// Rows of a sheet, whose names are kept one behind the other in one row of bytes. Rows are numbered from 0.
#[derive(Drop)]
pub struct SheetRows {
    // The assessor and the place of each row in one.
    names: NumberedNames,
    written: Vec<Written>,
}

impl Model for SheetRows {
    ghost use Rattle.std.specs.Prelude.{List};
    ghost use Rattle.sheet_merge.specs.Sheet.{SheetRow};
    ghost use Rattle.sheet_merge.specs.Packed.{unpacked, ArePacked};

    ghost Value = { List SheetRow };

    ghost view = { λ r. unpacked r.names r.written.items };

    ghost invariant = { λ r. ArePacked r.names r.written.items };
}

impl SheetRows {
    /// No row. It takes no memory.
    pub fn new(alloc: Global) -> SheetRows
        ensures { result ≡ [] }
    {
        SheetRows {
            names: NumberedNames::new(alloc),
            written: Vec::new(alloc),
        }
    }

    /// No row, and room for the rows of two lists. It fails only where memory runs out.
    pub fn with_room_of(
        alloc: Global,
        a: &SheetRows,
        b: &SheetRows,
    ) -> Result<SheetRows, AllocError>
        requires a { length a.now ≤ ENTRY_LIMIT }
        requires b { length b.now ≤ ENTRY_LIMIT }
        ensures { IfOk result (λ rows. rows ≡ []) }
    {
        let count = a.written.len() + b.written.len();
        let name_bytes = a.names.name_bytes() + b.names.name_bytes();
        Ok(SheetRows {
            names: NumberedNames::with_room(alloc, count, name_bytes)?,
            written: Vec::with_capacity(alloc, count)?,
        })
    }

    /// How many rows there are.
    pub fn len(&self) -> usize
        ensures { result ≡ length self.now }
    {
        self.written.len()
    }

    /// Row `i`.
    pub fn get(&self, i: usize) -> RowRef<'_>
        requires { i < length self.now }
        ensures { result ≡ row_at self.now i }
    {
        let name = self.names.get(i);
        let written = self.written[i];
        RowRef::new(
            second_name(name),
            first_name(name),
            written.stamp,
            written.grade,
        )
    }

    /// Puts a copy of a row at the end. It fails only where memory runs out, and then changes nothing.
    pub fn push(&mut self, alloc: Global, row: &RowRef<'_>) -> Result<(), AllocError>
        requires room { length self.old < ENTRY_LIMIT }
        requires right { IsSheetRow row.now }
        ensures ok { OnOk result (self.new ≡ self.old ++ row.now ∷ []) }
    {
        let name = PackedName::new(alloc, row)?;
        self.written.reserve(1)?;
        self.names.push(name.as_bytes())?;
        self.written.push_reserved(Written {
            stamp: row.stamp(),
            grade: row.grade(),
        });
        Ok(())
    }
}
