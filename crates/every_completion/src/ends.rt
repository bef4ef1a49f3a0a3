ghost use Rattle.std.specs.Prelude.{◌≡◌};
ghost use Rattle.std.specs.Int.{int_min, int_max};

/// The floors and the ceilings of unit times the least and the greatest difference of two runs.
#[derive(Clone, Copy, PartialEq, Eq)]
pub struct ExtremeEnds {
    pub least_lo: i128,
    pub least_hi: i128,
    pub most_lo: i128,
    pub most_hi: i128,
}

impl ExtremeEnds {
    /// The ends over the completions of either.
    pub fn join(self, other: ExtremeEnds) -> ExtremeEnds
        ensures least_lo { result.least_lo ≡ int_min self.least_lo other.least_lo }
        ensures least_hi { result.least_hi ≡ int_min self.least_hi other.least_hi }
        ensures most_lo { result.most_lo ≡ int_max self.most_lo other.most_lo }
        ensures most_hi { result.most_hi ≡ int_max self.most_hi other.most_hi }
    {
        ExtremeEnds {
            least_lo: self.least_lo.min(other.least_lo),
            least_hi: self.least_hi.min(other.least_hi),
            most_lo: self.most_lo.max(other.most_lo),
            most_hi: self.most_hi.max(other.most_hi),
        }
    }
}

/// Why a topic was not walked through.
#[derive(Debug, PartialEq, Eq, Drop)]
pub enum EndsFault {
    /// More than 16 documents are unjudged.
    TooManyUnjudged,
    /// Memory ran out.
    Memory,
}
