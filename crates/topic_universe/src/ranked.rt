// The names of a topic's rows in trec_eval's order.
ghost use Rattle.std.specs.Prelude.{◌≡◌, ◌<◌, ℕ, List, [], ◌∷◌, ◌++◌, length, map, IfOk, OnOk, slice_get, Some};
ghost use Rattle.std.specs.List.{IsDistinct};
ghost use Rattle.std.specs.Str.{bytes_eq};
ghost use Rattle.file_rows.specs.Grouped.{Valued};
ghost use Rattle.run_reader.specs.Run.{rows_on_topic};
ghost use Rattle.topic_universe.specs.Order.{IsTrecOrder};

use crate::entry::{RankedRows, are_in_order, ranked};
use desk_model::Memory;
use desk_text::Score;
use file_rows::ValuedRows;
use name_table::NumberedNames;
use run_reader::RunRows;
use std::alloc::Global;
use std::marker::Model;

/// The names of documents from the first rank on, as they stand in the rows.
#[derive(Drop)]
pub struct RankedNames<'r> {
    rows: RankedRows<'r>,
}

impl<'r> Model for RankedNames<'r> {
    ghost use Rattle.std.specs.Prelude.{List, ℕ, map};
    ghost use Rattle.topic_universe.specs.Entry.{ranked_rows};

    ghost Value = { List (List ℕ) };

    ghost view = { λ r. map (λ row. row.document) (ranked_rows r.rows) };
}

impl<'r> RankedNames<'r> {
    // The names of rows.
    fn of(alloc: Global, rows: &'r ValuedRows<Score>) -> Result<RankedNames<'r>, Memory>
        requires { IsDistinct bytes_eq (map (λ row. row.document) rows.now) }
        ensures { IfOk result (λ names. IsTrecOrder rows.now names) }
    {
        match ranked(alloc, rows) {
            Ok(rows) => Ok(RankedNames { rows }),
            Err(_) => Err(Memory),
        }
    }

    /// How many names there are.
    pub fn len(&self) -> usize
        ensures { result ≡ length self.now }
    {
        match &self.rows {
            RankedRows::Standing(rows) => rows.len(),
            RankedRows::Sorted(entries) => entries.len(),
        }
    }

    /// Name `i`, counted from 0: that of rank `i + 1`.
    pub fn get(&self, i: usize) -> &'r [u8]
        requires { i < length self.now }
        ensures { slice_get self.now i ≡ Some result.now }
    {
        match &self.rows {
            RankedRows::Standing(rows) => rows.document(i),
            RankedRows::Sorted(entries) => entries[i].1.0,
        }
    }
}

/// The names of a topic's rows in trec_eval's order: by score, the greatest first, and names of equal score by name, the greatest
/// first. A topic without rows has the empty list. The rank column is not looked at.
pub fn ranking<'r>(
    alloc: Global,
    rows: &'r RunRows,
    topic: &[u8],
) -> Result<RankedNames<'r>, Memory>
    ensures { IfOk result (λ names. IsTrecOrder (rows_on_topic rows.now topic.now) names) }
{
    match rows.rows_on(topic) {
        Some(scored) => RankedNames::of(alloc, scored),
        None => Ok(RankedNames {
            rows: RankedRows::Sorted(Vec::new(alloc)),
        }),
    }
}

// The most bytes that the names of a topic have together.
const MOST_BYTES: usize = 0xFFFF_FFFF;

// Puts a copy of a name at the end. It fails only where memory runs out, or the names would have 4,294,967,296 bytes together.
fn push_copy(names: &mut NumberedNames, name: &[u8]) -> Result<(), Memory>
    ensures { OnOk result (names.new ≡ names.old ++ name.now ∷ []) }
{
    if names.name_bytes().saturating_add(name.len()) > MOST_BYTES {
        return Err(Memory);
    }
    Ok(names.push(name)?)
}

// Copies of names, in their order, into room for so many bytes.
fn copied(
    alloc: Global,
    names: &RankedNames<'_>,
    name_bytes: usize,
) -> Result<NumberedNames, Memory>
    ensures { IfOk result (λ copies. copies ≡ names.now) }
{
    let mut copies = NumberedNames::with_room(alloc, names.len(), name_bytes)?;
    for i in 0..names.len() {
        push_copy(&mut copies, names.get(i))?;
    }
    Ok(copies)
}

// Copies of the names of rows that may stand in any order.
fn sorted_names(alloc: Global, rows: &ValuedRows<Score>) -> Result<NumberedNames, Memory>
    requires { IsDistinct bytes_eq (map (λ row. row.document) rows.now) }
    ensures { IfOk result (λ names. IsTrecOrder rows.now names) }
{
    let names = RankedNames::of(alloc, rows)?;
    Ok(copied(alloc, &names, rows.name_bytes())?)
}

/// Copies of the names of rows in trec_eval's order, in no more room than they take.
pub fn names_in_order(alloc: Global, rows: &ValuedRows<Score>) -> Result<NumberedNames, Memory>
    requires { IsDistinct bytes_eq (map (λ row. row.document) rows.now) }
    ensures { IfOk result (λ names. IsTrecOrder rows.now names) }
{
    if are_in_order(rows) {
        return Ok(rows.documents().packed(alloc)?);
    }
    sorted_names(alloc, rows)
}

/// The order fixes the list: two lists of names in trec_eval's order over the same rows are one.
pub fn order_is_one()
    ensures { (rows : List Valued) (a b : List (List ℕ)) → IsTrecOrder rows a → IsTrecOrder rows b →
        a ≡ b }
{}
