// The rows of a topic as they are sorted.
ghost use Rattle.std.specs.Prelude.{◌≡◌, ◌<◌, ◌-◌, true, map, length, slice_index_or, IfOk, IsPermutation};
ghost use Rattle.std.specs.List.{IsDistinct};
ghost use Rattle.std.specs.List.Sorted.{IsStrictlySortedBy};
ghost use Rattle.std.specs.Ordering.{is_lt};
ghost use Rattle.std.specs.Str.{bytes_eq};
ghost use Rattle.file_rows.specs.Grouped.{Valued};
ghost use Rattle.topic_universe.specs.Order.{trec_cmp};
ghost use Rattle.topic_universe.specs.Entry.{row_of, ranked_rows, AreInOrder};

use desk_text::Score;
use file_rows::ValuedRows;
use std::alloc::{AllocError, Global};
use std::cmp::{Ordering, Reverse};

/// A row, which is smaller the earlier it stands in trec_eval's order.
pub type Entry<'r> = (Reverse<&'r Score>, Reverse<&'r [u8]>);

/// Rows in trec_eval's order.
#[derive(Drop)]
pub enum RankedRows<'r> {
    /// As they stand in the file.
    Standing(&'r ValuedRows<Score>),
    /// As they were sorted.
    Sorted(Vec<Entry<'r>>),
}

/// The rows, in their own order.
fn entries_of(alloc: Global, rows: &ValuedRows<Score>) -> Result<Vec<Entry<'_>>, AllocError>
    ensures { IfOk result (λ entries. map row_of entries.items ≡ rows.now) }
{
    let mut entries = Vec::with_capacity(alloc, rows.len())?;
    for i in 0..rows.len() {
        entries.push((Reverse(rows.value(i)), Reverse(rows.document(i))))?;
    }
    Ok(entries)
}

/// The rows, sorted.
fn sorted(alloc: Global, rows: &ValuedRows<Score>) -> Result<Vec<Entry<'_>>, AllocError>
    ensures once { IfOk result (λ sorted. IsPermutation rows.now (map row_of sorted.items)) }
    ensures ordered { IfOk result (λ sorted. AreInOrder (map row_of sorted.items)) }
{
    let mut sorted = entries_of(alloc, rows)?;
    sorted.sort()?;
    Ok(sorted)
}

/// Whether row `i` belongs before the one that stands above it.
fn belongs_higher(rows: &ValuedRows<Score>, i: usize) -> bool
    requires second { 0 < i }
    requires within { i < length rows.now }
    ensures { (d : Valued) →
        result ≡
        is_lt (trec_cmp (slice_index_or rows.now i d) (slice_index_or rows.now (i - 1) d)) }
{
    match rows.value(i - 1).cmp(rows.value(i)) {
        Ordering::Less => true,
        Ordering::Equal => rows.document(i - 1).cmp(rows.document(i)).is_lt(),
        Ordering::Greater => false,
    }
}

/// Whether no row stands after one that belongs behind it.
pub fn are_in_order(rows: &ValuedRows<Score>) -> bool
    ensures { result ≡ true → AreInOrder rows.now }
{
    for i in 1..rows.len() {
        if belongs_higher(rows, i) {
            return false;
        }
    }
    true
}

/// The rows in trec_eval's order, sorted where they do not stand in it.
pub fn ranked(alloc: Global, rows: &ValuedRows<Score>) -> Result<RankedRows<'_>, AllocError>
    requires { IsDistinct bytes_eq (map (λ row. row.document) rows.now) }
    ensures once { IfOk result (λ ranked. IsPermutation rows.now (ranked_rows ranked)) }
    ensures ordered { IfOk result (λ ranked. IsStrictlySortedBy trec_cmp (ranked_rows ranked)) }
{
    if are_in_order(rows) {
        return Ok(RankedRows::Standing(rows));
    }
    Ok(RankedRows::Sorted(sorted(alloc, rows)?))
}
