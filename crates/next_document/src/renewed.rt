// The totals after a change of marks in one topic.
ghost use Rattle.std.specs.Prelude.{◌≡◌, ◌<◌, true, false, length, map};
ghost use Rattle.desk_model.specs.Desk.{AreMarksOf};
ghost use Rattle.desk_model.specs.Pairs.{pairs_of};
ghost use Rattle.desk_model.specs.declared.types.MeasureName.TheVariants.{RPrecision};
ghost use Rattle.next_document.specs.Kept.{AreTotalsOf, AreTotalsBut, WeighsWithoutMarks};
ghost use Rattle.next_document.specs.Total.{standing};

use crate::standing::{MarkedDesk, Standing, TopicStanding};
use desk_model::{Desk, MeasureName, Rows, Verdict};
use measure_core::Measure;

/// Whether the weights of documents depend on marks: those by R-precision do, on how many documents of a topic are
/// relevant.
pub fn weighs_by_marks(measure: MeasureName) -> bool
    ensures without { result ≡ false → WeighsWithoutMarks measure }
    ensures by_marks { result ≡ true → measure ≡ RPrecision }
{
    match measure {
        MeasureName::RPrecision => true,
        MeasureName::Precision(_)
        | MeasureName::Recall(_)
        | MeasureName::Reciprocal
        | MeasureName::Biased { .. }
        | MeasureName::AveragePrecision => false,
    }
}

/// Makes the totals of a topic whose marks changed anew, by the verdicts held. Before it they may be any, and those of
/// every other topic are the right ones already.
pub fn renew<'x, M: Measure>(
    measure: &'x M,
    desk: &'x Desk,
    marks: &'x Rows,
    held: &'x [Verdict],
    topic: u32,
    totals: &mut [Vec<u128>],
)
    requires marks { AreMarksOf desk.now marks.now }
    requires held { length held.now ≡ length (pairs_of desk.now.runs) }
    requires topic { topic < length desk.now.topics }
    requires others { AreTotalsBut topic
        (standing (M.measured measure.now) desk.now marks.now held.now)
        (map (λ each. each.items) totals.old) }
    ensures { AreTotalsOf (standing (M.measured measure.now) desk.now marks.now held.now)
        (map (λ each. each.items) totals.new) }
{
    let changed = TopicStanding {
        standing: Standing {
            measure,
            on: MarkedDesk { desk, marks },
            verdicts: held,
        },
        number: topic,
    };
    let totals = &mut totals[topic as usize];
    changed.sum_topic(totals);
}
