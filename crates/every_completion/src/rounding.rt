ghost use Rattle.std.specs.Prelude.{◌^◌, ◌≤ℤ◌, ◌<ℤ◌, pos, neg_ℤ};
ghost use Rattle.desk_model.specs.Floors.{IsFloor, IsCeiling};

/// One number over another. Its facts: the second is positive, and the first from -10^30 to 10^30.
#[derive(Clone, Copy)]
pub struct Quotient {
    pub n: i128,
    pub d: i128,
    pub ghost positive: { pos 0 <ℤ d },
    pub ghost low: { neg_ℤ (pos (10 ^ 30)) ≤ℤ n },
    pub ghost high: { n ≤ℤ pos (10 ^ 30) },
}

impl Quotient {
    /// Its floor.
    pub fn floor(self) -> i128
        ensures floor { IsFloor self.n self.d result }
        ensures low { neg_ℤ (pos (10 ^ 30)) ≤ℤ result }
        ensures high { result ≤ℤ pos (10 ^ 30) }
    {
        self.n.div_euclid(self.d)
    }

    /// Its ceiling.
    pub fn ceiling(self) -> i128
        ensures { IsCeiling self.n self.d result }
    {
        let swapped = Quotient {
            n: -self.n,
            d: self.d,
        };
        -swapped.floor()
    }
}
