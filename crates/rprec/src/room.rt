//! What is found of two runs, in room for what both share that is no greater than the longer one needs.
ghost use Rattle.std.specs.Prelude.{◌≡◌, ℕ, ◌*◌, ◌<◌, ◌≤◌, List, length, slice_index_or};
ghost use Rattle.desk_model.specs.declared.types.Mark.{Mark as M};
ghost use Rattle.rprec.specs.Rooms.{longest_of};

use crate::known::KnownPair;
use crate::pair::RunPair;
use crate::shared::share;
use crate::sums::sum_shared;

/// What is to be found of two runs on a topic.
pub trait PairFinding {
    /// Whether it is what `find` answers of two runs.
    ghost is_of: { Self → List M → List ℕ → List ℕ → Type 0 };

    /// Finds it of two runs, by what is known of them at the ends of blocks.
    fn find(pair: &RunPair) -> Self
        ensures { is_of result pair.now.marks.now pair.now.a.now pair.now.b.now };
}

/// How many documents the longer of two runs has, and at least 1.
fn longest(known: &KnownPair) -> u32
    ensures { result ≡ longest_of known.now }
{
    known.a.len().max(known.b.len()).max(1) as u32
}

/// Finds it where there is room for a count at each place, all 0, and for a sum at each end of a block.
fn find_over<F: PairFinding>(known: &KnownPair, counts: &mut [u8], sums: &mut [u32]) -> F
    requires none { (place : ℕ) → slice_index_or counts.old place 0 ≡ 0 }
    requires places { longest_of known.now ≤ length counts.old }
    requires blocks { longest_of known.now < 10 * length sums.old }
    ensures { F.is_of result known.now.marks.now known.now.a.now known.now.b.now }
{
    let longest = longest(known);
    share(known, counts);
    sum_shared(counts, longest, sums);
    let pair = RunPair {
        a: known.a,
        b: known.b,
        first: known.first,
        second: known.second,
        both: sums,
        shared: counts,
        marks: known.marks,
        all: known.all,
        longest,
    };
    F::find(&pair)
}

/// Finds it in room for so many places and sums.
#[inline(never)]
fn find_in_room<F: PairFinding, const PLACES: usize, const SUMS: usize>(known: &KnownPair) -> F
    requires places { longest_of known.now ≤ PLACES }
    requires sums { longest_of known.now < 10 * SUMS }
    requires few_places { PLACES ≤ 10_000 }
    requires few_sums { SUMS ≤ 1_001 }
    ensures { F.is_of result known.now.marks.now known.now.a.now known.now.b.now }
{
    let mut counts = [0; PLACES];
    let mut sums = [0; SUMS];
    find_over(known, &mut counts, &mut sums)
}

/// Finds it of two runs. What both share takes room on the stack, and of three sizes the smallest that serves, since all
/// of it is cleared.
pub fn find<F: PairFinding>(known: &KnownPair) -> F
    ensures { F.is_of result known.now.marks.now known.now.a.now known.now.b.now }
{
    let longest = longest(known);
    if longest <= 100 {
        find_in_room::<F, 100, 11>(known)
    } else if longest <= 1_000 {
        find_in_room::<F, 1_000, 101>(known)
    } else {
        find_in_room::<F, 10_000, 1_001>(known)
    }
}
