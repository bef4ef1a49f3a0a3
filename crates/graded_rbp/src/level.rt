// The sums of the table of one level.
ghost use Rattle.std.specs.Prelude.{◌≡◌, ◌+◌, ◌*◌, ℕ, length, map, IfOk, OnOk, OnErr};
ghost use Rattle.desk_model.specs.Desk.{pair_count};
ghost use Rattle.desk_model.specs.MeasureText.{IsMeasure};
ghost use Rattle.desk_model.specs.Pairs.{pairs_of};
ghost use Rattle.pair_table.specs.Sums.{run_numbers};
ghost use Rattle.graded_rbp.specs.Grades.{graded_topics};
ghost use Rattle.graded_rbp.specs.Numbers.{level_totals, level_bounds};
ghost use Rattle.graded_rbp.specs.Score.{GradedMeasure, binary};

use desk_model::{Desk, Marks, MeasureName, Memory};
use measure_core::{Maker, Steps};
use pair_table::{TableSums, sums_on};
use std::alloc::Global;
use std::sync::ledger::Ledger;

/// The sums of the table of a measure over a desk, under the marks of the judgements file at a level: under rank-biased
/// precision they are those of the level. It is one step for each pair and topic, and none where memory runs out.
///
/// # Errors
/// `Memory`: out of memory.
pub fn level_sums<P: Maker, L: Ledger>(
    alloc: Global,
    desk: &Desk,
    level: u32,
    name: MeasureName,
    maker: &P,
    steps: &mut Steps<L>,
) -> Result<TableSums<P::Made>, Memory>
    requires measure { IsMeasure name }
    ensures runs { IfOk result (λ sums. sums.runs ≡ length desk.now.runs) }
    ensures totals { IfOk result (λ sums. (m : GradedMeasure) → name ≡ binary m →
        sums.totals ≡ map (λ (pair : ℕ × ℕ).
        level_totals m pair.0 pair.1 (graded_topics desk.now) level)
        (pairs_of (run_numbers (length desk.now.runs)))) }
    ensures bounds { IfOk result (λ sums. (m : GradedMeasure) → name ≡ binary m →
        sums.bounds ≡ map (λ run. level_bounds m run (graded_topics desk.now) level)
        (run_numbers (length desk.now.runs))) }
    ensures steps { OnOk result (steps.new ≡ steps.old + pair_count (length desk.now.runs) *
        length desk.now.topics) }
    ensures no_steps { OnErr result (steps.new ≡ steps.old) }
{
    desk.valid();
    let marks = Marks::of_file(alloc, desk, level, None)?;
    sums_on(alloc, desk, &marks, name, maker, steps)
}
