ghost use Rattle.std.specs.Prelude.{◌≡◌, length};
ghost use Rattle.desk_model.specs.Placed.{lookup};
ghost use Rattle.desk_model.specs.Ranking.{IsRanking};
ghost use Rattle.measure_core.specs.Shifts.{HaveRoom, AreShifted};
ghost use Rattle.measure_core.specs.Places.{IsLeft};
ghost use Rattle.measure_core.specs.Worths.{worths_apart};

use crate::Shift;
use crate::places::{first_weight, rest};
use crate::worths::RankWorth;
use desk_model::{Placed, Ranking};
use topic_counts::pairs::passed;

/// Adds what the ranks of a list are worth to the totals of their documents, or takes it back.
fn shift_rest<W: RankWorth>(ranks: &W, places: &[Placed], shift: Shift, totals: &mut [u128])
    requires places { IsLeft (length totals.old) places.now }
    requires room { HaveRoom shift (λ doc. W.worth ranks.now (lookup places.now doc)) totals.old }
    ensures { AreShifted shift (λ doc. W.worth ranks.now (lookup places.now doc)) totals.old
        totals.new }
{
    for place in places {
        let total = &mut totals[place.doc as usize];
        *total = shift.apply(*total, u128::from(ranks.worth_at(place.rank)));
    }
}

/// Adds the weights of the documents of two rankings to their totals, or takes them back, by one walk over both in
/// order of the documents. Totals go by the number of the document. It takes no memory.
pub fn shift_by_ranks<W: RankWorth>(
    ranks: &W,
    a: &Ranking,
    b: &Ranking,
    shift: Shift,
    totals: &mut [u128],
)
    requires first { IsRanking (length totals.old) a.now }
    requires second { IsRanking (length totals.old) b.now }
    requires room { HaveRoom shift (worths_apart (W.worth ranks.now) a.now b.now) totals.old }
    ensures { AreShifted shift (worths_apart (W.worth ranks.now) a.now b.now) totals.old
        totals.new }
{
    let first = a.by_doc();
    let second = b.by_doc();
    let mut i = 0;
    let mut j = 0;
    // No jump depends on which document comes first, which no processor foresees.
    while i < first.len() && j < second.len() {
        let x = first[i];
        let y = second[j];
        let weight = first_weight(ranks, x, y);
        let total = &mut totals[x.doc.min(y.doc) as usize];
        *total = shift.apply(*total, u128::from(weight));
        i += passed(x, y);
        j += passed(y, x);
    }
    // One of the two is at its end.
    shift_rest(ranks, rest(first, i), shift, totals);
    shift_rest(ranks, rest(second, j), shift, totals);
}
