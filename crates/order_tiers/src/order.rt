ghost use Rattle.std.specs.Prelude.{◌≡◌, ◌<◌, All, length, IfOk};
ghost use Rattle.desk_model.specs.Desk.{AreMarksOf};
ghost use Rattle.pair_table.specs.Kept.{StandsFor};
ghost use Rattle.pair_table.specs.Numbers.{HasCellEnds};
ghost use Rattle.order_tiers.specs.Tables.{IsTableFor};
ghost use Rattle.order_tiers.specs.Order.{compared, IsOrderBy, CoverIsWithin};
ghost use Rattle.order_tiers.specs.Rows.{is_above};
ghost use Rattle.order_tiers.specs.Tiers.{tier_in};

use crate::closing::certified_rows;
use crate::cover::Cover;
use crate::covers::covers_of;
use crate::desk_rows::DeskRows;
use crate::direct::PairVerdicts;
use crate::run_set::RunSet;
use crate::tiers::{greatest_tier, tiers_of};
use desk_model::{Desk, Marks, Memory, Rows};
use measure_core::Measure;
use pair_table::Table;
use std::alloc::{AllocError, Global};
use std::marker::Model;

/// The order of the runs of a table, numbered from 0: which are certified above which, their tiers, and the covering
/// pairs.
#[derive(Drop)]
pub struct Order {
    rows: Vec<RunSet>,
    tiers: Vec<u32>,
    greatest: u32,
    covers: Vec<Cover>,
}

impl Model for Order {
    ghost use Rattle.order_tiers.specs.Order.{Ordered, IsKeptOrder};

    ghost Value = { Ordered };

    ghost view = { λ o. record { above = o.rows.items; tiers = o.tiers.items; greatest = o.greatest; covers = o.covers.items } };

    ghost invariant = { λ o. IsKeptOrder o.rows.items o.tiers.items o.covers.items };
}

// The order of the runs of a table of a measure whose name is known.
fn order_of<M: Measure>(
    alloc: Global,
    table: &Table<M>,
    desk: &Desk,
    marks: &Rows,
) -> Result<Order, AllocError>
    requires { IsTableFor (M.measured table.now.measure) (M.cell_of table.now.measure)
        (M.bounds_of table.now.measure) desk.now marks.now table.now }
    ensures { IfOk result (IsOrderBy (HasCellEnds (M.cell_of table.now.measure))
        (compared desk.now marks.now table.now.totals)) }
{
    let pairs = PairVerdicts {
        runs: desk.run_count(),
        verdicts: table.verdicts(),
    };
    let rows = certified_rows(alloc, &pairs)?;
    let of = DeskRows { desk, rows: &rows };
    let tiers = tiers_of(alloc, &of)?;
    let greatest = greatest_tier(&tiers);
    let covers = covers_of(alloc, table, marks, &of)?;
    Ok(Order {
        rows,
        tiers,
        greatest,
        covers,
    })
}

impl Order {
    /// The order of the runs of a table, for a desk and marks for which the table stands. It asks the table for its
    /// verdicts and its kept cells, and evaluates none.
    ///
    /// # Errors
    /// `Memory`: out of memory.
    pub fn of_table<M: Measure>(
        alloc: Global,
        table: &Table<M>,
        desk: &Desk,
        marks: &Marks,
    ) -> Result<Order, Memory>
        requires marks { AreMarksOf desk.now marks.now.rows }
        requires table { StandsFor (M.cell_of table.now.measure) (M.bounds_of table.now.measure)
            desk.now marks.now.rows table.now }
        ensures { IfOk result (IsOrderBy (HasCellEnds (M.cell_of table.now.measure))
            (compared desk.now marks.now.rows table.now.totals)) }
    {
        desk.valid();
        // The laws speak of measures that have a name.
        let _name = table.measure().name();
        let order = order_of(alloc, table, desk, marks.rows())?;
        Ok(order)
    }

    /// Whether run `i` is certified above run `j`: a chain of pairs leads from i to j, each run above the next by the
    /// verdict of the two. No run is above itself. It takes no memory.
    pub fn above(&self, i: u32, j: u32) -> bool
        requires first { i < length self.now.tiers }
        requires second { j < length self.now.tiers }
        ensures { result ≡ is_above self.now.above i j }
    {
        self.rows[i as usize].has(j)
    }

    /// The tier of run `i`: 1 where no run is certified above it, else 1 more than the greatest tier of a run that is. It
    /// takes no memory.
    pub fn tier(&self, i: u32) -> u32
        requires { i < length self.now.tiers }
        ensures { result ≡ tier_in self.now.tiers i }
    {
        self.tiers[i as usize]
    }

    /// The greatest tier. It takes no memory.
    pub fn tiers(&self) -> u32
        ensures { result ≡ self.now.greatest }
    {
        self.greatest
    }

    /// The covering pairs, ascending by the first run's number and then the second's. It takes no memory.
    pub fn covers(&self) -> &[Cover]
        ensures covers { result.now ≡ self.now.covers }
        ensures within { All (CoverIsWithin (length self.now.tiers)) result.now }
    {
        &self.covers
    }
}
