// Lines of 16 to 63 bytes whose fields stand between spaces, as most lines of runs are. Their fields are found by bits alone.
ghost use Rattle.std.specs.Prelude.{◌≡◌, ℕ, List, ◌+◌, ◌^◌, ◌<◌, ◌≤◌, ◌↔◌, IsTrue, length, slice_index, if◌then◌else◌};
ghost use Rattle.std.specs.Int.{bit_at};
ghost use Rattle.desk_text.specs.Lines.{AreFields};
ghost use Rattle.desk_text.specs.Places.{count_of, places_of};
ghost use Rattle.desk_text.specs.Stops.{is_other, AreFieldBits, IsSpaced};

use crate::places::Fields;
use crate::stops::{MOST_KNOWN, TOGETHER};
use std::simd::prelude::*;

// Which of 16 bytes stand in no field and are no spaces: bit `k` tells it of the byte that stands `k` after the place.
#[inline(always)]
fn others(line: &[u8], from: usize) -> u64
    requires { from + 16 ≤ length line.now }
    ensures bits { (k : ℕ) → k < 16 →
        bit_at result k ≡ (if is_other (slice_index line.now (from + k)) then 1 else 0) }
    ensures few { result < 65536 }
{
    let bytes = u8x16::from_slice(&line[from..]);
    let low = bytes.simd_lt(u8x16::splat(32)).to_bitmask();
    let delete = bytes.simd_eq(u8x16::splat(127)).to_bitmask();
    low | delete
}

/// Whether a line has 16 to 63 bytes, and no other byte than spaces between its fields.
#[inline(always)]
pub(crate) fn is_spaced(line: &[u8]) -> bool
    ensures { IsTrue result ↔ IsSpaced line.now }
{
    if line.len() < TOGETHER || line.len() >= MOST_KNOWN {
        return false;
    }
    let last = line.len() - TOGETHER;
    let first = others(line, 0) | others(line, last.min(16));
    let rest = others(line, last.min(32)) | others(line, last);
    first | rest == 0
}

/// The fields of a line of which it is known which bytes stand in a field.
pub(crate) fn fields_in(bits: u64) -> Fields
    requires { bits < 2 ^ 63 }
    ensures { (line : List ℕ) → AreFieldBits line bits →
        AreFields line (count_of result) (places_of result) }
{
    let mut count = 0;
    let mut places = [(0, 0); 6];
    let mut left = bits;
    let mut at = 0;
    while left != 0 {
        let skipped = left.trailing_zeros();
        let run = left >> skipped;
        let long = run.trailing_ones();
        left = run >> long;
        let start = at + skipped as usize;
        at = start + long as usize;
        if count < 6 {
            places[count] = (start, at);
        }
        count += 1;
    }
    Fields { count, places }
}
