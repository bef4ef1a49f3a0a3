// The table of the measure of a name, and its sums alone.
ghost use Rattle.std.specs.Prelude.{◌≡◌, ◌+◌, ◌*◌, length, IfOk, OnOk, OnErr};
ghost use Rattle.desk_model.specs.Desk.{AreMarksOf, pair_count};
ghost use Rattle.desk_model.specs.MeasureText.{IsMeasure};
ghost use Rattle.pair_table.specs.Made.{IsSumsOf, IsTableOf};

use crate::table::Table;
use crate::table_sums::TableSums;
use desk_model::{Desk, Marks, MeasureName, Memory};
use measure_core::{Maker, Measure, Steps};
use std::alloc::Global;
use std::sync::ledger::Ledger;

/// The table of the measure of a name over a desk under marks, by the measure that the maker makes. It is one step for
/// each pair and topic, and none where memory runs out.
///
/// # Errors
/// `Memory`: out of memory.
pub fn table_on<P: Maker, L: Ledger>(
    alloc: Global,
    desk: &Desk,
    marks: &Marks,
    name: MeasureName,
    maker: &P,
    steps: &mut Steps<L>,
) -> Result<Table<P::Made>, Memory>
    requires measure { IsMeasure name }
    requires marks { AreMarksOf desk.now marks.now.rows }
    ensures table { IfOk result (λ table.
        IsTableOf (P.Made.measured table.measure) (P.Made.cell_of table.measure)
        (P.Made.bounds_of table.measure) name desk.now marks.now.rows table) }
    ensures steps { OnOk result (steps.new ≡ steps.old + pair_count (length desk.now.runs) *
        length desk.now.topics) }
    ensures no_steps { OnErr result (steps.new ≡ steps.old) }
{
    let measure = maker.make(alloc, name)?;
    Table::new(alloc, desk, marks, measure, steps)
}

/// The sums of that table, without its cells. It is one step for each pair and topic, and none where memory runs out.
///
/// # Errors
/// `Memory`: out of memory.
pub fn sums_on<P: Maker, L: Ledger>(
    alloc: Global,
    desk: &Desk,
    marks: &Marks,
    name: MeasureName,
    maker: &P,
    steps: &mut Steps<L>,
) -> Result<TableSums<P::Made>, Memory>
    requires measure { IsMeasure name }
    requires marks { AreMarksOf desk.now marks.now.rows }
    ensures sums { IfOk result (λ sums.
        IsSumsOf (P.Made.measured sums.measure) (P.Made.cell_of sums.measure)
        (P.Made.bounds_of sums.measure) name desk.now marks.now.rows sums) }
    ensures steps { OnOk result (steps.new ≡ steps.old + pair_count (length desk.now.runs) *
        length desk.now.topics) }
    ensures no_steps { OnErr result (steps.new ≡ steps.old) }
{
    let made = maker.make(alloc, name)?;
    TableSums::new(alloc, desk, marks, made, steps)
}
