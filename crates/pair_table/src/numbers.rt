// The cells and bounds of a topic.
ghost use Rattle.std.specs.Prelude.{◌≡◌, ◌+◌, ◌<◌, All, length};
ghost use Rattle.desk_model.specs.MeasureText.{IsMeasure};
ghost use Rattle.desk_model.specs.Pairs.{pairs_of};
ghost use Rattle.measure_core.specs.Laws.{SpanIsModest, CellIsModest};
ghost use Rattle.pair_table.specs.Sums.{run_numbers};
ghost use Rattle.pair_table.specs.TopicUnder.{numbers_of, topic_of};

use crate::marked_topic::MarkedTopic;
use measure_core::{CellRoom, KeptCell, Measure, Steps};
use std::sync::ledger::Ledger;
use topic_counts::Span;

// The bounds of a run on a topic, by its number.
fn bounds_at<M: Measure>(measure: &M, topic: &MarkedTopic<'_>, run: u32) -> Span
    requires { run < length topic.now.desk.runs }
    ensures bounds { result ≡
        M.bounds_of measure.now (topic_of topic.now).marks ((topic_of topic.now).ranking run) }
    ensures modest { IsMeasure (M.measured measure.now) → SpanIsModest result }
{
    measure.bounds(topic.ranking(run), topic.marks())
}

/// Evaluates the cell of each pair on a topic, in a room whose contents are anything. It is one step for each.
pub fn evaluate_cells<M: Measure, L: Ledger>(
    cells: &mut [KeptCell],
    measure: &M,
    topic: &MarkedTopic<'_>,
    room: &mut CellRoom,
    steps: &mut Steps<L>,
)
    requires { length cells.old ≡ length (pairs_of (run_numbers (length topic.now.desk.runs))) }
    ensures cells { cells.new ≡
        (numbers_of (M.cell_of measure.now) (M.bounds_of measure.now) topic.now).cells }
    ensures modest { All CellIsModest cells.new }
    ensures steps { steps.new ≡ steps.old + length cells.old }
{
    // The laws speak of measures that have a name.
    let _name = measure.name();
    let rankings = topic.rankings();
    measure.cells(&rankings, topic.marks(), room, cells, steps);
}

/// Evaluates the bounds of each run on a topic.
pub fn evaluate_bounds<M: Measure>(bounds: &mut [Span], measure: &M, topic: &MarkedTopic<'_>)
    requires { length bounds.old ≡ length topic.now.desk.runs }
    ensures bounds { bounds.new ≡
        (numbers_of (M.cell_of measure.now) (M.bounds_of measure.now) topic.now).bounds }
    ensures modest { All SpanIsModest bounds.new }
{
    // The laws speak of measures that have a name.
    let _name = measure.name();
    for run in 0..topic.runs() {
        bounds[run as usize] = bounds_at(measure, topic, run);
    }
}
