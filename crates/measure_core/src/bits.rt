// A bit for each document, 64 in each number.
ghost use Rattle.std.specs.Prelude.{◌≡◌, ◌*◌, ◌<◌, ◌≤◌, length};
ghost use Rattle.measure_core.specs.Bits.{AreBitsIn, has_bit};

use crate::marked::MarkedRun;
use desk_model::Mark;

/// Whether the bit of a document is set.
#[inline]
pub fn has_bit(bits: &[u64], doc: u32) -> bool
    requires { doc < 64 * length bits.now }
    ensures { result ≡ has_bit bits.now doc }
{
    (bits[doc as usize / 64] >> (doc % 64)) & 1 == 1
}

/// Makes `bits` the bits of a run's documents that may be relevant, and clears all others.
pub(crate) fn set_bits(marked: &MarkedRun, bits: &mut [u64])
    requires { length marked.now.marks.now ≤ 64 * length bits.old }
    ensures bits { AreBitsIn marked.now.run.now marked.now.marks.now bits.new }
    ensures count { length bits.new ≡ length bits.old }
{
    let marks = marked.marks;
    bits.fill(0);
    for doc in marked.run.docs() {
        if marks[*doc as usize] != Mark::Other {
            bits[*doc as usize / 64] |= 1 << (*doc % 64);
        }
    }
}
