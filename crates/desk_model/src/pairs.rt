/// The places of the two runs of a pair, from 0, the first before the second.
#[derive(Clone, Copy, PartialEq, Eq)]
pub struct PairPlaces {
    pub first: u32,
    pub second: u32,
}

impl PairPlaces {
    ghost use Rattle.std.specs.Prelude.{◌≡◌, ◌+◌, ◌<◌, ◌≤◌};
    ghost use Rattle.desk_model.specs.Limits.{RUN_LIMIT};
    ghost use Rattle.desk_model.specs.Pairs.{places_after};

    /// The first pair.
    pub const START: PairPlaces = PairPlaces {
        first: 0,
        second: 1,
    };

    /// The pair after this one among so many runs.
    pub fn next(self, runs: u32) -> PairPlaces
        requires order { self.first < self.second }
        requires within { self.second < runs }
        requires few { runs ≤ RUN_LIMIT }
        ensures { result ≡ places_after runs self }
    {
        if self.second + 1 < runs {
            PairPlaces {
                first: self.first,
                second: self.second + 1,
            }
        } else {
            PairPlaces {
                first: self.first + 1,
                second: self.first + 2,
            }
        }
    }
}
