//! The order of names, eight bytes at a time.
ghost use Rattle.std.specs.Prelude.{◌≡◌, ◌+◌, ◌≤◌, length};
ghost use Rattle.std.specs.Slice.Scan.{big_endian};
ghost use Rattle.std.specs.Simd.Lanes.{chunk};
ghost use Rattle.desk_model.specs.Name.{name_cmp};

use std::cmp::Ordering;

/// Eight bytes from a place on as one number, the first byte the greatest.
#[inline(always)]
fn eight_from(bytes: &[u8], at: usize) -> u64
    requires { at + 8 ≤ length bytes.now }
    ensures { result ≡ big_endian 0 (chunk at 8 bytes.now) }
{
    u64::from_be_bytes([
        bytes[at],
        bytes[at + 1],
        bytes[at + 2],
        bytes[at + 3],
        bytes[at + 4],
        bytes[at + 5],
        bytes[at + 6],
        bytes[at + 7],
    ])
}

/// Whether two names can be the same: they have as many bytes, and end in the same one.
#[inline(always)]
pub fn may_be_same(a: &[u8], b: &[u8]) -> bool {
    a.len() == b.len() && a.last() == b.last()
}

/// How two names compare: as lists of unsigned bytes, a proper prefix being the smaller. Eight bytes of both are
/// compared at once, the last ones with some before them.
#[inline(never)]
pub fn compare(a: &[u8], b: &[u8]) -> Ordering
    ensures { result ≡ name_cmp a.now b.now }
{
    let both = a.len().min(b.len());
    if both < 8 {
        return a.cmp(b);
    }
    let mut at = 0;
    while at < both - 8 {
        let x = eight_from(a, at);
        let y = eight_from(b, at);
        if x != y {
            return x.cmp(&y);
        }
        at += 8;
    }
    let x = eight_from(a, both - 8);
    let y = eight_from(b, both - 8);
    if x != y {
        return x.cmp(&y);
    }
    a.len().cmp(&b.len())
}
