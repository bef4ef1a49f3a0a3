ghost use Rattle.desk_model.specs.Limits.{PARTS_OF_ONE};
ghost use Rattle.std.specs.Prelude.{◌≡◌, ◌^◌, ◌≤ℤ◌, ◌<ℤ◌, ◌+ℤ◌, ◌*ℤ◌, pos, neg_ℤ};
ghost use Rattle.topic_counts.specs.Ends.{IsFloor, IsCeiling, IsShort};

/// A lower and an upper end, both whole numbers.
#[derive(Clone, Copy, PartialEq, Eq)]
pub struct Span {
    pub lo: i128,
    pub hi: i128,
}

impl Span {
    /// The span of a sum: both lower ends added, and both upper ends.
    pub fn add(self, other: Span) -> Span
        requires first { IsShort self }
        requires second { IsShort other }
        ensures lo { result.lo ≡ self.lo +ℤ other.lo }
        ensures hi { result.hi ≡ self.hi +ℤ other.hi }
    {
        Span {
            lo: self.lo + other.lo,
            hi: self.hi + other.hi,
        }
    }

    /// The span of the negated number: both ends negated, and in each other's place.
    pub fn negate(self) -> Span
        requires { IsShort self }
        ensures lo { result.lo ≡ neg_ℤ self.hi }
        ensures hi { result.hi ≡ neg_ℤ self.lo }
    {
        Span {
            lo: -self.hi,
            hi: -self.lo,
        }
    }
}

/// The floor of n over d.
fn floor(n: i128, d: i128) -> i128
    requires positive { pos 0 <ℤ d }
    requires low { neg_ℤ (pos (10 ^ 28)) ≤ℤ n }
    requires high { n ≤ℤ pos (10 ^ 28) }
    ensures floor { IsFloor n d result }
    ensures low { neg_ℤ (pos (10 ^ 28)) ≤ℤ result }
    ensures high { result ≤ℤ pos (10 ^ 28) }
{
    n.div_euclid(d)
}

/// The ceiling of n over d.
fn ceiling(n: i128, d: i128) -> i128
    requires positive { pos 0 <ℤ d }
    requires low { neg_ℤ (pos (10 ^ 28)) ≤ℤ n }
    requires high { n ≤ℤ pos (10 ^ 28) }
    ensures { IsCeiling n d result }
{
    let swapped = -n;
    -floor(swapped, d)
}

/// The floor and the ceiling of `unit * num / den`.
pub fn span_of(num: i128, den: i128, unit: i128) -> Span
    requires den { pos 1 ≤ℤ den }
    requires den_small { den ≤ℤ pos (10 ^ 9) }
    requires num_low { neg_ℤ (pos (10 ^ 9)) ≤ℤ num }
    requires num_high { num ≤ℤ pos (10 ^ 9) }
    requires unit { pos 1 ≤ℤ unit }
    requires unit_small { unit ≤ℤ pos PARTS_OF_ONE }
    ensures floor { IsFloor (unit *ℤ num) den result.lo }
    ensures ceiling { IsCeiling (unit *ℤ num) den result.hi }
{
    let n = unit * num;
    Span {
        lo: floor(n, den),
        hi: ceiling(n, den),
    }
}
