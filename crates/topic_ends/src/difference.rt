ghost use Rattle.std.specs.Prelude.{pos, ◌*ℤ◌};
ghost use Rattle.desk_model.specs.Floors.{IsFloor, IsCeiling};
ghost use Rattle.desk_model.specs.Limits.{PARTS_OF_ONE};
ghost use Rattle.topic_counts.specs.Ends.{IsNear};
ghost use Rattle.topic_ends.specs.Differences.{IsSmallDifference, IsLowered, lead_of, whole_of};

use topic_counts::{Span, span_of};

/// How many units make a score of 1, under each measure but precision.
const UNIT: i128 = 1_000_000_000_000_000_000;

/// A difference of two scores: a count less another, out of a whole, or out of 1 where that is 0.
#[derive(Clone, Copy, PartialEq, Eq)]
pub struct Difference {
    pub first: u32,
    pub second: u32,
    pub whole: u32,
}

impl Difference {
    /// Its ends in units.
    fn span(self) -> Span
        requires { IsSmallDifference self }
        ensures floor { IsFloor (pos PARTS_OF_ONE *ℤ lead_of self) (pos (whole_of self)) result.lo }
        ensures ceiling { IsCeiling (pos PARTS_OF_ONE *ℤ lead_of self) (pos (whole_of self))
            result.hi }
        ensures near { IsNear result.lo }
    {
        span_of(
            i128::from(self.first) - i128::from(self.second),
            i128::from(self.whole.max(1)),
            UNIT,
        )
    }

    /// The greatest whole number of units that is at most the difference.
    pub fn floor(self) -> i128
        requires { IsSmallDifference self }
        ensures floor { IsFloor (pos PARTS_OF_ONE *ℤ lead_of self) (pos (whole_of self)) result }
        ensures near { IsNear result }
    {
        self.span().lo
    }

    /// The smallest whole number of units that is at least the difference.
    pub fn ceiling(self) -> i128
        requires { IsSmallDifference self }
        ensures { IsCeiling (pos PARTS_OF_ONE *ℤ lead_of self) (pos (whole_of self)) result }
    {
        self.span().hi
    }

    /// The greatest whole number that is at most both a number and the difference in units.
    pub fn lowered(self, low: i128) -> i128
        requires small { IsSmallDifference self }
        requires near { IsNear low }
        ensures lowered { IsLowered self low result }
        ensures near { IsNear result }
    {
        let lead = i128::from(self.first) - i128::from(self.second);
        if UNIT * lead < low * i128::from(self.whole.max(1)) {
            self.floor()
        } else {
            low
        }
    }
}
