//! What the trials compute by themselves, without a measure.
ghost use Rattle.std.specs.Prelude.{◌≡◌, ◌-ℤ◌, ◌*ℤ◌, ◌≤ℤ◌, int_le, ◌&&◌, if◌then◌else◌, map, pos, IfOk};
ghost use Rattle.desk_model.specs.declared.types.Mark.TheVariants.{Relevant, Other};

use desk_model::Mark;
use std::alloc::{AllocError, Global};

/// Marks under which each document is judged: relevant where its truth value says so.
/// It fails only where memory runs out.
pub fn judged(alloc: Global, values: &[bool]) -> Result<Vec<Mark>, AllocError>
    ensures { IfOk result (λ marks. marks.items ≡
        map (λ value. if value then Relevant else Other) values.now) }
{
    let mut marks = Vec::new(alloc);
    for value in values {
        marks.push(if *value { Mark::Relevant } else { Mark::Other })?;
    }
    Ok(marks)
}

/// 10^18 times the difference of two scores in parts of 10^-7.
pub fn difference(first: u64, second: u64) -> i128
    ensures { result ≡ (pos first -ℤ pos second) *ℤ pos 100000000000 }
{
    (i128::from(first) - i128::from(second)) * 100_000_000_000
}

/// Whether a number is at least one number and at most another.
pub fn is_in(lo: i128, number: i128, hi: i128) -> bool
    ensures { result ≡ (int_le lo number && int_le number hi) }
{
    lo <= number && number <= hi
}

/// Whether a set of documents, by its bits, has this one.
pub fn has(set: u32, doc: u32) -> bool {
    set.wrapping_shr(doc) & 1 == 1
}

/// Whether the relevant documents are those of a completion of the marks.
pub fn completes(relevant: u32, marks: &[Mark]) -> bool {
    let mut doc: u32 = 0;
    for mark in marks {
        let held = has(relevant, doc);
        if (*mark == Mark::Relevant && !held) || (*mark == Mark::Other && held) {
            return false;
        }
        doc = doc.wrapping_add(1);
    }
    true
}
