// The merge of two maps.
ghost use Rattle.std.specs.Prelude.{◌≡◌, ◌⊎◌, ◌+◌, ◌<◌, ◌≤◌, All, drop, length, IfOk, Err};
ghost use Rattle.sheet_merge.specs.Sheet.{IsMap, IsSheet, IsSheetRow, greater, place_cmp, merged};
ghost use Rattle.sheet_merge.specs.Walking.{IsTakenNext};
ghost use Rattle.sheet_merge.specs.declared.limits.TheConstants.{ENTRY_LIMIT};

use crate::fault::MergeFault;
use crate::limits::ENTRY_LIMIT;
use crate::row::RowRef;
use crate::rows::SheetRows;
use std::alloc::Global;
use std::cmp::Ordering;

// The row with the greater entry, of two rows of one place.
fn greater_row<'r>(x: &RowRef<'r>, y: &RowRef<'r>) -> RowRef<'r>
    requires { place_cmp x.now.0 y.now.0 ≡ Ordering.Equal }
    ensures row { result ≡ (x.now.0, greater x.now.1 y.now.1) }
    ensures right { IsSheetRow x.now → IsSheetRow y.now → IsSheetRow result }
{
    match x.compare_entry(y) {
        Ordering::Less => y.copied(),
        _ => x.copied(),
    }
}

// The next row of two maps, from these places on; the places are moved past it.
fn take_next<'r>(a: &'r SheetRows, i: &mut usize, b: &'r SheetRows, j: &mut usize) -> RowRef<'r>
    requires a { IsMap (drop i.old a.now) }
    requires b { IsMap (drop j.old b.now) }
    requires a_few { length a.now ≤ ENTRY_LIMIT }
    requires b_few { length b.now ≤ ENTRY_LIMIT }
    requires some { (i.old < length a.now) ⊎ (j.old < length b.now) }
    requires i_in { i.old ≤ length a.now }
    requires j_in { j.old ≤ length b.now }
    ensures next { IsTakenNext (drop i.old a.now) (drop j.old b.now) result (drop i.new a.now)
        (drop j.new b.now) }
    ensures moved { i.old + j.old < i.new + j.new }
    ensures i_in { i.new ≤ length a.now }
    ensures j_in { j.new ≤ length b.now }
    ensures right { All IsSheetRow a.now → All IsSheetRow b.now → IsSheetRow result }
{
    if *j == b.len() {
        let row = a.get(*i);
        *i += 1;
        return row;
    }
    if *i == a.len() {
        let row = b.get(*j);
        *j += 1;
        return row;
    }
    let x = a.get(*i);
    let y = b.get(*j);
    match x.compare_place(&y) {
        Ordering::Less => {
            *i += 1;
            x
        }
        Ordering::Greater => {
            *j += 1;
            y
        }
        Ordering::Equal => {
            *i += 1;
            *j += 1;
            greater_row(&x, &y)
        }
    }
}

/// The merge of two maps.
///
/// # Errors
/// - `TooManyEntries`: exactly where it has more places than a sheet may have.
/// - `Memory`: out of memory.
pub fn merged(alloc: Global, a: &SheetRows, b: &SheetRows) -> Result<SheetRows, MergeFault>
    requires a { IsSheet a.now }
    requires b { IsSheet b.now }
    ensures merged { IfOk result (λ rows. rows ≡ merged a.now b.now) }
    ensures sheet { IfOk result (λ rows. IsSheet rows) }
    ensures many { result ≡ Err MergeFault.TooManyEntries →
        ENTRY_LIMIT < length (merged a.now b.now) }
{
    let mut rows = SheetRows::with_room_of(alloc, a, b)?;
    let (mut i, mut j) = (0, 0);
    while i + j < a.len() + b.len() {
        if rows.len() == ENTRY_LIMIT {
            return Err(MergeFault::TooManyEntries);
        }
        let row = take_next(a, &mut i, b, &mut j);
        rows.push(alloc, &row)?;
    }
    Ok(rows)
}
