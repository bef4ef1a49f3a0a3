// Where the bytes of a field end. The first bytes of a line are looked at 16 at a time, once for all its fields.
ghost use Rattle.std.specs.Prelude.{◌≡◌, ℕ, List, ◌+◌, ◌<◌, ◌≤◌, length, slice_index, max, min, ◌-◌, ◌^◌, if◌then◌else◌, false, true, IfSome, IfNone};
ghost use Rattle.std.specs.Int.{bit_at};
ghost use Rattle.desk_text.specs.Lines.{is_stop};
ghost use Rattle.desk_text.specs.Stops.{AreFieldBits, AreFirstStops, IsInField, IsSpaced};

use std::simd::prelude::*;

// How many bytes are looked at together.
pub(crate) const TOGETHER: usize = 16;

// How many bytes of a line are looked at in this way: as many as a number has bits.
pub(crate) const MOST_KNOWN: usize = 64;

/// Whether a byte stands in no field.
fn is_stop(byte: u8) -> bool
    ensures { result ≡ is_stop byte }
{
    byte < 33 || byte == 127
}

// Which of 16 bytes stand in no field: bit `k` tells it of the byte that stands `k` after the place.
#[inline(always)]
fn stops(line: &[u8], from: usize) -> u64
    requires { from + 16 ≤ length line.now }
    ensures bits { (k : ℕ) → k < 16 →
        bit_at result k ≡ (if is_stop (slice_index line.now (from + k)) then 1 else 0) }
    ensures few { result < 65536 }
{
    let bytes = u8x16::from_slice(&line[from..]);
    let low = bytes.simd_lt(u8x16::splat(33)).to_bitmask();
    let delete = bytes.simd_eq(u8x16::splat(127)).to_bitmask();
    low | delete
}

// A number whose first bits are set.
fn low_bits(count: usize) -> u64
    requires { count < 64 }
    ensures { result ≡ 2 ^ count - 1 }
{
    (1 << count) - 1
}

/// Which of the first bytes of a line stand in no field.
#[derive(Clone, Copy)]
pub(crate) struct FirstStops {
    // Of how many bytes this is known.
    known: usize,
    // Bit `i` tells it of byte `i`.
    bits: u64,
}

impl FirstStops {
    /// Those of up to 64 bytes of a line. Of a line of less than 16 bytes nothing is known.
    #[inline(always)]
    pub(crate) fn of(line: &[u8]) -> FirstStops
        ensures known { AreFirstStops line.now result }
        ensures all { 16 ≤ length line.now → result.known ≡ min (length line.now) 64 }
    {
        let none = FirstStops { known: 0, bits: 0 };
        if line.len() < TOGETHER {
            return none;
        }
        let last = line.len().min(MOST_KNOWN) - TOGETHER;
        none.with_more(line, 0)
            .with_more(line, last.min(16))
            .with_more(line, last.min(32))
            .with_more(line, last)
    }

    // With the 16 bytes from a place on.
    #[inline(always)]
    fn with_more(self, line: &[u8], from: usize) -> FirstStops
        requires known { AreFirstStops line.now self }
        requires next { from ≤ self.known }
        requires more { self.known ≤ from + 16 }
        requires few { from + 16 ≤ 64 }
        requires within { from + 16 ≤ length line.now }
        ensures known { AreFirstStops line.now result }
        ensures count { result.known ≡ from + 16 }
    {
        FirstStops {
            known: from + TOGETHER,
            bits: self.bits | (stops(line, from) << from),
        }
    }

    /// Which bytes of a line stand in a field, where all are known and none is bad.
    #[inline(always)]
    pub(crate) fn in_fields(self) -> u64
        requires { self.known < 64 }
        ensures bits { (line : List ℕ) → AreFirstStops line self → IsSpaced line →
            length line ≡ self.known → AreFieldBits line result }
        ensures few { result < 2 ^ 63 }
    {
        !self.bits & low_bits(self.known)
    }

    // The first known byte from a place on that stands in no field.
    #[inline(always)]
    fn find(self, from: usize) -> Option<usize>
        requires { self.known ≤ 64 }
        ensures some { IfSome result (λ end. (line : List ℕ) → AreFirstStops line self →
            IsInField line from end × (is_stop (slice_index line end) ≡ true)) }
        ensures none { IfNone result ((line : List ℕ) → AreFirstStops line self →
            from ≤ length line → IsInField line from (max from self.known)) }
    {
        if self.known <= from {
            return None;
        }
        let found = self.bits >> from;
        if found == 0 {
            None
        } else {
            Some(from + found.trailing_zeros() as usize)
        }
    }
}

/// The first byte from a place on that stands in no field, or the end of the line.
#[inline(always)]
pub(crate) fn next_stop(line: &[u8], first: FirstStops, from: usize) -> usize
    requires first { AreFirstStops line.now first }
    requires from { from ≤ length line.now }
    ensures field { IsInField line.now from result }
    ensures stop { result < length line.now → is_stop (slice_index line.now result) ≡ true }
{
    if let Some(end) = first.find(from) {
        return end;
    }
    let mut at = from.max(first.known);
    while at < line.len() && !is_stop(line[at]) {
        at += 1;
    }
    at
}
