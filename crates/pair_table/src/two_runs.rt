//! Two different runs of so many, and where their numbers are among those of all pairs.
ghost use Rattle.std.specs.Prelude.{◌≡◌, ◌≢◌, ◌<◌, ◌≤◌, All, length, slice_get, Some};
ghost use Rattle.desk_model.specs.Limits.{RUN_LIMIT};
ghost use Rattle.desk_model.specs.Pairs.{pairs_of};
ghost use Rattle.pair_table.specs.Kept.{AreModestTotals, AreSumsOf};
ghost use Rattle.pair_table.specs.Sums.{run_numbers, swapped_totals};

use desk_model::Totals;

/// Two runs of so many by their numbers from 0, the first before the second.
#[derive(Clone, Copy)]
struct OrderedRuns {
    runs: u32,
    first: u32,
    second: u32,
    ghost few: { runs ≤ RUN_LIMIT },
    ghost order: { first < second },
    ghost within: { second < runs },
}

impl OrderedRuns {
    /// The number of the pair, from 0. Pairs are in the order (0, 1), (0, 2), .. up to the last two runs.
    fn number(&self) -> u32
        ensures { slice_get (pairs_of (run_numbers self.now.runs)) result ≡
            Some (self.now.first, self.now.second) }
    {
        self.first * (2 * self.runs - self.first - 1) / 2 + (self.second - self.first - 1)
    }
}

/// The place of two runs among all pairs.
#[derive(Clone, Copy)]
pub enum PairPlace {
    /// The number of their pair: the first run comes before the second.
    InOrder(u32),
    /// The number of the pair of the swapped runs: the second comes before the first.
    Swapped(u32),
}

/// Two different runs of so many, by their numbers from 0.
#[derive(Clone, Copy)]
pub struct TwoRuns {
    pub runs: u32,
    pub first: u32,
    pub second: u32,
    pub ghost few: { runs ≤ RUN_LIMIT },
    pub ghost different: { first ≢ second },
    pub ghost first_known: { first < runs },
    pub ghost second_known: { second < runs },
}

/// The sums of two swapped runs.
fn swapped_sums(totals: &Totals) -> Totals
    requires { AreModestTotals totals.now }
    ensures { result ≡ swapped_totals totals.now }
{
    Totals {
        least_lo: -totals.most_hi,
        least_hi: -totals.most_lo,
        most_lo: -totals.least_hi,
        most_hi: -totals.least_lo,
    }
}

impl TwoRuns {
    ghost use Rattle.pair_table.specs.Places.{IsPlaceOf};

    /// Where the numbers of the two runs are among those of all pairs, in pair order.
    pub fn place(&self) -> PairPlace
        ensures { IsPlaceOf self.now.runs self.now.first self.now.second result }
    {
        if self.first < self.second {
            let pair = OrderedRuns {
                runs: self.runs,
                first: self.first,
                second: self.second,
            };
            PairPlace::InOrder(pair.number())
        } else {
            let pair = OrderedRuns {
                runs: self.runs,
                first: self.second,
                second: self.first,
            };
            PairPlace::Swapped(pair.number())
        }
    }

    /// The sums of the two runs, out of those of each pair in pair order. Those of (j, i) are those of (i, j) swapped:
    /// least and greatest change places, and each end is negated.
    pub fn sums_in(&self, totals: &[Totals]) -> Totals
        requires count { length totals.now ≡ length (pairs_of (run_numbers self.now.runs)) }
        requires near { All AreModestTotals totals.now }
        ensures { AreSumsOf self.now.runs totals.now self.now.first self.now.second result }
    {
        match self.place() {
            PairPlace::InOrder(place) => totals[place as usize],
            PairPlace::Swapped(place) => swapped_sums(&totals[place as usize]),
        }
    }
}
