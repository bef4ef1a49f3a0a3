//! Which documents are true in a least case.
ghost use Rattle.std.specs.Prelude.{◌≡◌, not, false};

use crate::numbers::Case;
use measure_core::Picks;
use precision_candidates::by_rank::{RankClasses, is_within};

/// The documents that a case of two runs makes true, by their ranks.
#[derive(Clone, Copy)]
pub struct RankCase<'r> {
    pub case: Case,
    pub first: RankClasses<'r>,
    pub second: RankClasses<'r>,
}

impl Picks for RankCase<'_> {
    ghost use Rattle.desk_model.specs.Ranking.{rank};
    ghost use Rattle.average_precision.specs.RankCases.{is_picked_in};

    ghost picks = { λ p doc. is_picked_in p.case p.first.cuts (rank p.first.run.on.run.now doc) p.second.cuts (rank p.second.run.on.run.now doc) };

    fn is_picked(&self, doc: u32) -> bool {
        match self.case {
            Case::OfNone => false,
            Case::OfLow => !is_within(self.first.cuts.left_out, self.first.run.on.run.rank_of(doc)),
            Case::OfHigh => is_within(self.second.cuts.taken, self.second.run.on.run.rank_of(doc)),
        }
    }
}
