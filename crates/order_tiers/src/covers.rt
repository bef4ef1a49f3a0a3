// The covering pairs of a table, with the topics that they win and lose.
ghost use Rattle.std.specs.Prelude.{◌≡◌, ◌↔◌, ◌+◌, ◌<◌, true, length, pos, int_lt, IfOk, OnOk};
ghost use Rattle.desk_model.specs.Desk.{topics_under};
ghost use Rattle.pair_table.specs.Numbers.{HasCellEnds};
ghost use Rattle.pair_table.specs.Sums.{cell_ends};
ghost use Rattle.order_tiers.specs.Tables.{IsTableFor, IsBelowBelow, HaveCoversBefore};
ghost use Rattle.order_tiers.specs.Order.{wins_in, losses_in, compared, AreCovers};
ghost use Rattle.order_tiers.specs.Rows.{AboveBy};
ghost use Rattle.order_tiers.specs.Tiers.{IsCovering};

use crate::cover::Cover;
use crate::desk_rows::{DeskRow, DeskRows, TwoRuns};
use crate::run_set::RunSet;
use desk_model::Rows;
use measure_core::{Cell, Measure};
use pair_table::Table;
use std::alloc::{AllocError, Global};

// Whether the first run's score is greater by the least difference.
fn is_won(cell: Cell) -> bool
    ensures { result ≡ int_lt (pos 0) cell.least.lo }
{
    cell.least.lo > 0
}

// Whether the second run's score is greater by the greatest difference.
fn is_lost(cell: Cell) -> bool
    ensures { result ≡ int_lt cell.most.hi (pos 0) }
{
    cell.most.hi < 0
}

// The covering pair of two different runs, with the topics that it wins and loses.
fn cover_of<M: Measure>(table: &Table<M>, marks: &Rows, pair: &TwoRuns<'_>) -> Cover
    requires { IsTableFor (M.measured table.now.measure) (M.cell_of table.now.measure)
        (M.bounds_of table.now.measure) pair.now.desk.now marks.now table.now }
    ensures first { result.first ≡ pair.now.first }
    ensures second { result.second ≡ pair.now.second }
    ensures wins { result.wins ≡
        wins_in (cell_ends (M.cell_of table.now.measure)
        (topics_under pair.now.desk.now marks.now) pair.now.first pair.now.second) }
    ensures losses { result.losses ≡
        losses_in (cell_ends (M.cell_of table.now.measure)
        (topics_under pair.now.desk.now marks.now) pair.now.first pair.now.second) }
{
    // Whose cells these are.
    let _ = marks;
    let mut wins = 0;
    let mut losses = 0;
    for topic in 0..pair.desk.topic_count() {
        let cell = table.cell(pair.first, pair.second, topic);
        if is_won(cell) {
            wins += 1;
        }
        if is_lost(cell) {
            losses += 1;
        }
    }
    Cover {
        first: pair.first,
        second: pair.second,
        wins,
        losses,
    }
}

// Makes `between` the runs that are below a run below the first one.
fn find_between(first: &DeskRow<'_>, between: &mut RunSet)
    requires { length between.old ≡ length first.now.of.rows.now }
    ensures { IsBelowBelow first.now.of.rows.now first.now.run between.new }
{
    let rows = first.of.rows;
    between.clear();
    for run in 0..rows.len() {
        if rows[first.run as usize].has(run as u32) {
            between.add_all(&rows[run]);
        }
    }
}

// Whether a run covers another, by the runs that are below a run below it.
fn is_covering(first: &DeskRow<'_>, between: &RunSet, second: u32) -> bool
    requires between { IsBelowBelow first.now.of.rows.now first.now.run between.now }
    requires second { second < length first.now.of.rows.now }
    ensures { (result ≡ true) ↔
        IsCovering (AboveBy first.now.of.rows.now) (length first.now.of.rows.now) first.now.run
        second }
{
    first.of.rows[first.run as usize].has(second) && !between.has(second)
}

// Adds the covering pairs of a first run to those before it.
fn push_covers<M: Measure>(
    list: &mut Vec<Cover>,
    table: &Table<M>,
    marks: &Rows,
    first: &DeskRow<'_>,
    between: &RunSet,
) -> Result<(), AllocError>
    requires table { IsTableFor (M.measured table.now.measure) (M.cell_of table.now.measure)
        (M.bounds_of table.now.measure) first.now.of.desk.now marks.now table.now }
    requires between { IsBelowBelow first.now.of.rows.now first.now.run between.now }
    requires before { HaveCoversBefore (AboveBy first.now.of.rows.now)
        (HasCellEnds (M.cell_of table.now.measure))
        (compared first.now.of.desk.now marks.now table.now.totals) list.old.items first.now.run
        0 }
    ensures { OnOk result (HaveCoversBefore (AboveBy first.now.of.rows.now)
        (HasCellEnds (M.cell_of table.now.measure))
        (compared first.now.of.desk.now marks.now table.now.totals) list.new.items
        (first.now.run + 1) 0) }
{
    for second in 0..first.of.desk.run_count() {
        if is_covering(first, between, second) {
            let pair = TwoRuns {
                desk: first.of.desk,
                first: first.run,
                second,
            };
            list.push(cover_of(table, marks, &pair))?;
        }
    }
    Ok(())
}

/// The covering pairs of a table, ascending, by the runs that are certified above which.
pub(crate) fn covers_of<M: Measure>(
    alloc: Global,
    table: &Table<M>,
    marks: &Rows,
    of: &DeskRows<'_>,
) -> Result<Vec<Cover>, AllocError>
    requires { IsTableFor (M.measured table.now.measure) (M.cell_of table.now.measure)
        (M.bounds_of table.now.measure) of.now.desk.now marks.now table.now }
    ensures { IfOk result (λ covers.
        AreCovers (AboveBy of.now.rows.now) (HasCellEnds (M.cell_of table.now.measure))
        (compared of.now.desk.now marks.now table.now.totals) covers.items) }
{
    let mut between = RunSet::new(of.rows.len() as u32);
    let mut list = Vec::new(alloc);
    for run in 0..of.desk.run_count() {
        let first = DeskRow { of: *of, run };
        find_between(&first, &mut between);
        push_covers(&mut list, table, marks, &first, &between)?;
    }
    Ok(list)
}
