//! The ends of the least difference of two runs on a topic, and its least case.
ghost use Rattle.std.specs.Prelude.{◌≡◌, ℕ, ◌*◌, ◌≤◌, List, pos, ◌-ℤ◌};
ghost use Rattle.desk_model.specs.Limits.{PARTS_OF_ONE, RANK_LIMIT};
ghost use Rattle.desk_model.specs.declared.types.Mark.{Mark as M};
ghost use Rattle.measure_laws.specs.AverageEnds.{is_same_list};
ghost use Rattle.topic_counts.specs.Ends.{IsNear};
ghost use Rattle.average_precision.specs.Least.{AreKnown, IsLeast, case_of, smaller_of};

use crate::numbers::{Case, Least, PairRun};

/// One number less another.
fn difference(x: u128, y: u128) -> i128
    requires x { x ≤ RANK_LIMIT * PARTS_OF_ONE }
    requires y { y ≤ RANK_LIMIT * PARTS_OF_ONE }
    ensures value { result ≡ pos x -ℤ pos y }
    ensures near { IsNear result }
{
    x as i128 - y as i128
}

/// Whether two rankings are one list of documents.
pub fn are_same(a: &[u32], b: &[u32]) -> bool
    ensures { result ≡ is_same_list a.now b.now }
{
    a == b
}

/// The ends of the least difference of two runs that are not one list, from each run's numbers and its own in the
/// other's candidates.
fn least_apart(a: PairRun, b: PairRun) -> Least
    ensures lo { result.lo ≡ pos a.numbers.lo -ℤ pos b.numbers.hi }
    ensures hi { result.hi ≡
        smaller_of (pos a.numbers.high_in_low -ℤ pos a.other.in_low)
        (pos b.other.in_high -ℤ pos b.numbers.low_in_high) }
    ensures case { result.kind ≡
        case_of (pos a.numbers.high_in_low -ℤ pos a.other.in_low)
        (pos b.other.in_high -ℤ pos b.numbers.low_in_high) }
{
    let low = difference(a.numbers.high_in_low, a.other.in_low);
    let high = difference(b.other.in_high, b.numbers.low_in_high);
    let lo = difference(a.numbers.lo, b.numbers.hi);
    if low < high {
        Least {
            lo,
            hi: low,
            kind: Case::OfLow,
        }
    } else {
        Least {
            lo,
            hi: high,
            kind: Case::OfHigh,
        }
    }
}

/// The ends of the least difference of two runs.
pub fn least_of(same: bool, a: PairRun, b: PairRun) -> Least
    ensures { (marks : List M) (first second : List ℕ) →
        AreKnown marks first second same a.numbers b.numbers b.other.in_high a.other.in_low →
        IsLeast marks first second result }
{
    if same {
        return Least {
            lo: 0,
            hi: 0,
            kind: Case::OfNone,
        };
    }
    least_apart(a, b)
}
