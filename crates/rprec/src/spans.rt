//! The ends of the least and the greatest difference of two runs, in units.
ghost use Rattle.std.specs.Prelude.{◌≡◌, ℕ, ◌^◌, ◌<◌, ◌≤◌, List, max, pos, ◌*ℤ◌};
ghost use Rattle.desk_model.specs.Limits.{DOCUMENT_LIMIT};
ghost use Rattle.desk_model.specs.declared.types.Mark.{Mark as M};
ghost use Rattle.desk_model.specs.declared.types.MeasureName.TheVariants.{RPrecision as R};
ghost use Rattle.measure_core.specs.Numbers.{exact_least};
ghost use Rattle.topic_counts.specs.Ends.{IsFloor, IsCeiling, IsShort};
ghost use Rattle.rprec.specs.Greedy.{IsWithinOne, IsLeast};

use crate::extremes::Extremes;
use crate::greedy::Small;
use crate::pair::RunPair;
use crate::room::PairFinding;
use measure_core::Cell;
use topic_counts::Span;

/// How many units make a score of 1.
pub const UNIT: u64 = 1_000_000_000_000_000_000;

/// The floor and the ceiling of a fraction of at most 1, in units. No number here takes more than 64 bits, since the
/// unit is divided first, and what that leaves afterwards.
fn ends_in_units(count: u32, out_of: u32) -> Span
    requires some { 0 < out_of }
    requires part { count ≤ out_of }
    requires few { out_of ≤ DOCUMENT_LIMIT }
    ensures floor { IsFloor (pos (10 ^ 18) *ℤ pos count) (pos out_of) result.lo }
    ensures ceiling { IsCeiling (pos (10 ^ 18) *ℤ pos count) (pos out_of) result.hi }
    ensures short { IsShort result }
{
    let parts = u64::from(out_of);
    let each = UNIT / parts;
    let left = u64::from(count) * (UNIT % parts);
    let low = u64::from(count) * each + left / parts;
    let high = low + u64::from(left % parts > 0);
    Span {
        lo: i128::from(low),
        hi: i128::from(high),
    }
}

/// The ends of the difference of a candidate.
pub fn span(c: Small) -> Span
    requires { IsWithinOne c.candidate }
    ensures span { (marks : List M) (a b : List ℕ) → IsLeast marks a b c.candidate →
        result ≡ exact_least R marks a b }
    ensures short { IsShort result }
{
    let c = c.candidate;
    let out_of = c.count.max(1);
    if c.first < c.second {
        ends_in_units(c.second - c.first, out_of).negate()
    } else {
        ends_in_units(c.first - c.second, out_of)
    }
}

/// The ends of the least and the greatest difference, in units.
impl PairFinding for Cell {
    ghost use Rattle.desk_model.specs.declared.types.MeasureName.TheVariants.{RPrecision as R};
    ghost use Rattle.measure_core.specs.Numbers.{exact_cell};
    ghost use Rattle.std.specs.Prelude.{◌≡◌};

    ghost is_of = { λ cell marks a b. cell ≡ exact_cell R marks a b };

    fn find(pair: &RunPair) -> Cell {
        let extremes = Extremes::find(pair);
        Cell {
            least: span(extremes.least),
            most: span(extremes.most).negate(),
        }
    }
}
