// The rows that were read, in order.
ghost use Rattle.std.specs.Prelude.{◌≡◌, ◌≤◌, All, IfOk, Ok, length};
ghost use Rattle.sheet_merge.specs.Lines.{IsSheetUnlessMemory};
ghost use Rattle.sheet_merge.specs.Sheet.{IsSheetRow, map_of};
ghost use Rattle.sheet_merge.specs.Table.{AreGathered};
ghost use Rattle.sheet_merge.specs.declared.limits.TheConstants.{ENTRY_LIMIT};

use crate::fault::SheetFault;
use crate::row::RowRef;
use crate::rows::SheetRows;
use crate::sheet::Sheet;
use crate::table::EntryTable;
use std::alloc::{AllocError, Global};

// The rows of a table.
fn row_refs(alloc: Global, table: &EntryTable) -> Result<Vec<RowRef<'_>>, AllocError>
    ensures rows { IfOk result (λ rows. rows.items ≡ table.now) }
    ensures gathered { AreGathered table.now }
{
    let mut rows = Vec::with_capacity(alloc, table.len())?;
    for i in 0..table.len() {
        rows.push(table.get(i))?;
    }
    Ok(rows)
}

// Copies of rows.
fn copied(alloc: Global, rows: &[RowRef<'_>]) -> Result<SheetRows, AllocError>
    requires few { length rows.now ≤ ENTRY_LIMIT }
    requires right { All IsSheetRow rows.now }
    ensures { IfOk result (λ copies. copies ≡ rows.now) }
{
    let mut copies = SheetRows::new(alloc);
    for i in 0..rows.len() {
        copies.push(alloc, &rows[i])?;
    }
    Ok(copies)
}

/// The sheet of the rows of a table. It fails only where memory runs out.
pub fn sorted_sheet(alloc: Global, table: &EntryTable) -> Result<Sheet, SheetFault>
    ensures { IsSheetUnlessMemory result (Ok (map_of table.now)) }
{
    let mut rows = row_refs(alloc, table)?;
    rows.sort_unstable_by(|x, y| x.compare_place(y));
    let copies = copied(alloc, &rows)?;
    Ok(Sheet::new(copies))
}
