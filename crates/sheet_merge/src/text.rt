// The text of a sheet.
ghost use Rattle.std.specs.Prelude.{◌≡◌, ◌++◌, ◌∷◌, [], IfOk, OnOk};
ghost use Rattle.sheet_merge.specs.Text.{entry_text, sheet_text};

use crate::row::RowRef;
use crate::rows::SheetRows;
use desk_model::{push_grade, push_whole};
use std::alloc::{AllocError, Global};

// Puts a space and a field.
fn push_field(out: &mut Vec<u8>, field: &[u8]) -> Result<(), AllocError>
    ensures { OnOk result (out.new.items ≡ out.old.items ++ 32 ∷ field.now) }
{
    out.extend_from_slice(b" ")?;
    out.extend_from_slice(field)
}

// Puts the line of a row.
fn push_entry(out: &mut Vec<u8>, row: &RowRef<'_>) -> Result<(), AllocError>
    ensures { OnOk result (out.new.items ≡ out.old.items ++ (entry_text row.now ++ 10 ∷ [])) }
{
    push_whole(out, row.stamp() as u128)?;
    push_field(out, row.who())?;
    push_field(out, row.topic())?;
    push_field(out, row.document())?;
    out.extend_from_slice(b" ")?;
    push_grade(out, row.grade() as i32)?;
    out.extend_from_slice(b"\n")
}

/// The lines of rows. It fails only where memory runs out.
pub fn rows_text(alloc: Global, rows: &SheetRows) -> Result<Vec<u8>, AllocError>
    ensures { IfOk result (λ text. text.items ≡ sheet_text rows.now) }
{
    let mut text = Vec::new(alloc);
    for i in 0..rows.len() {
        push_entry(&mut text, &rows.get(i))?;
    }
    Ok(text)
}
