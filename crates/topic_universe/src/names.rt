// Names in ascending order.
ghost use Rattle.std.specs.Prelude.{◌≡◌, ◌≤◌, ◌<◌, ◌*◌, ◌/◌, ◌^◌, ℕ, true, All, IfOk, IfSome, IfNone, IsPermutation, flat_map, length, map, slice_index, sum_by, take};
ghost use Rattle.std.specs.List.{range_with_len};
ghost use Rattle.name_table.specs.declared.blocked_names.TheConstants.{BLOCK_NAMES};
ghost use Rattle.desk_model.specs.Limits.{DOCUMENT_LIMIT};
ghost use Rattle.desk_model.specs.Name.{is_name, AreAscending};
ghost use Rattle.topic_universe.specs.Names.{AreDistinctNames};
ghost use Rattle.topic_universe.specs.Sorted.{AreSorted, IsPlaceOf};

use crate::numbered::Numbered;
use desk_model::{Memory, Name};
use file_rows::NameIndex;
use name_table::{BLOCK_NAMES, BlockedNames, NumberedNames};
use std::alloc::{AllocError, Global};

fn numbered<'n>(alloc: Global, names: &NameIndex<'n>) -> Result<Vec<Numbered<'n>>, AllocError>
    ensures names { IfOk result (λ pairs. map (λ pair. pair.0.now) pairs.items ≡ names.now) }
    ensures numbers { IfOk result (λ pairs. map (λ pair. pair.1) pairs.items ≡
        range_with_len 0 (length names.now)) }
{
    let mut pairs = Vec::with_capacity(alloc, names.len())?;
    for i in 0..names.len() {
        pairs.push(Numbered::new(names.get(i), i))?;
    }
    Ok(pairs)
}

// The names in ascending order, each with its number.
pub(crate) fn sorted<'n>(
    alloc: Global,
    names: &NameIndex<'n>,
) -> Result<Vec<Numbered<'n>>, AllocError>
    requires { AreDistinctNames names.now }
    ensures { IfOk result (λ pairs. AreSorted names.now pairs.items) }
{
    let mut pairs = numbered(alloc, names)?;
    pairs.sort_unstable_by(|x, y| x.compare(y));
    Ok(pairs)
}

// Copies of the names, in their order, each with room of its own.
fn copied(alloc: Global, pairs: &[Numbered<'_>]) -> Result<Vec<Name>, Memory>
    requires { All (λ pair. is_name pair.0.now ≡ true) pairs.now }
    ensures { IfOk result (λ copies. copies.items ≡ map (λ pair. pair.0.now) pairs.now) }
{
    let mut copies = Vec::with_capacity(alloc, pairs.len())?;
    for i in 0..pairs.len() {
        copies.push(Name::copy_of(alloc, pairs[i].name())?)?;
    }
    Ok(copies)
}

// The most bytes that one row of names has.
const MOST_ROW_BYTES: usize = 0xFFFF_FFFF;

// How many bytes the names have together, and `None` exactly where these are too many for one row.
fn row_bytes(pairs: &[Numbered<'_>]) -> Option<usize>
    ensures sum { IfSome result (λ bytes. bytes ≡
        sum_by length (map (λ pair. pair.0.now) pairs.now)) }
    ensures fits { IfSome result (λ bytes. bytes < 2 ^ 32) }
    ensures none { IfNone result (2 ^ 32 ≤ sum_by length (map (λ pair. pair.0.now) pairs.now)) }
{
    let mut bytes = 0;
    for pair in pairs {
        bytes += pair.name().len();
        if bytes > MOST_ROW_BYTES {
            return None;
        }
    }
    Some(bytes)
}

// Copies of the names, in their order, in one row of bytes. It fails only where memory runs out, or they have 4,294,967,296 bytes or
// more together.
fn in_one_row(alloc: Global, pairs: &[Numbered<'_>]) -> Result<NumberedNames, Memory>
    ensures { IfOk result (λ names. names ≡ map (λ pair. pair.0.now) pairs.now) }
{
    let Some(bytes) = row_bytes(pairs) else {
        return Err(Memory);
    };
    let mut names = NumberedNames::with_room(alloc, pairs.len(), bytes)?;
    for pair in pairs {
        names.push(pair.name())?;
    }
    Ok(names)
}

// Copies of the names of all whole blocks.
fn whole_blocks(alloc: Global, pairs: &[Numbered<'_>]) -> Result<Vec<NumberedNames>, Memory>
    ensures count { IfOk result (λ blocks. length blocks.items ≡ length pairs.now / BLOCK_NAMES) }
    ensures whole { IfOk result (λ blocks. All (λ block. length block ≡ BLOCK_NAMES) blocks.items) }
    ensures names { IfOk result (λ blocks. flat_map (λ block. block) blocks.items ≡
        map (λ pair. pair.0.now) (take (BLOCK_NAMES * length blocks.items) pairs.now)) }
{
    let mut blocks = Vec::with_capacity(alloc, pairs.len() / BLOCK_NAMES)?;
    for block in 0..pairs.len() / BLOCK_NAMES {
        let start = BLOCK_NAMES * block;
        blocks.push(in_one_row(alloc, &pairs[start..start + BLOCK_NAMES])?)?;
    }
    Ok(blocks)
}

/// Copies of the names, in their order, in blocks. It fails only where memory runs out, or the names of a block have 4,294,967,296
/// bytes or more together.
pub fn in_blocks(alloc: Global, pairs: &[Numbered<'_>]) -> Result<BlockedNames, Memory>
    ensures { IfOk result (λ names. names ≡ map (λ pair. pair.0.now) pairs.now) }
{
    let whole = whole_blocks(alloc, pairs)?;
    let last = in_one_row(alloc, &pairs[BLOCK_NAMES * whole.len()..])?;
    Ok(BlockedNames::of(whole, last))
}

/// Copies of the names in ascending order, each with room of its own.
pub fn ascending(alloc: Global, names: &NameIndex<'_>) -> Result<Vec<Name>, Memory>
    requires { AreDistinctNames names.now }
    ensures ascending { IfOk result (λ sorted. AreAscending sorted.items) }
    ensures moved { IfOk result (λ sorted. IsPermutation names.now sorted.items) }
{
    let pairs = sorted(alloc, names)?;
    Ok(copied(alloc, &pairs)?)
}

/// Where each number stands among pairs that have them all.
pub fn places(alloc: Global, pairs: &[Numbered<'_>]) -> Result<Vec<u32>, AllocError>
    requires few { length pairs.now ≤ DOCUMENT_LIMIT }
    requires all { IsPermutation (range_with_len 0 (length pairs.now))
        (map (λ pair. pair.1) pairs.now) }
    ensures count { IfOk result (λ places. length places.items ≡ length pairs.now) }
    ensures places { IfOk result (λ places. (n : ℕ) → n < length pairs.now →
        IsPlaceOf pairs.now n (slice_index places.items n)) }
{
    let mut places = vec![in alloc; 0; pairs.len()]?;
    for i in 0..pairs.len() {
        places[pairs[i].number()] = i as u32;
    }
    Ok(places)
}
