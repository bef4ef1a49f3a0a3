ghost use Rattle.std.specs.Prelude.{◌≡◌};
ghost use Rattle.topic_counts.specs.Ends.{IsShort};
ghost use Rattle.measure_laws.specs.Shares.{IsModest};
ghost use Rattle.measure_core.specs.Laws.{CellIsModest};

use crate::cell::Cell;
use std::marker::Model;
use topic_counts::Span;

/// A cell in 32 bytes: its ends lie from -2*10^18 to 2*10^18.
#[derive(Clone, Copy)]
pub struct KeptCell {
    pub least_lo: i64,
    pub least_hi: i64,
    pub most_lo: i64,
    pub most_hi: i64,
}

impl Model for KeptCell {
    ghost use Rattle.measure_core.specs.declared.cell.Cell.{Cell as C};

    ghost Value = { C };

    ghost view = { λ k. record { least = record { lo = k.least_lo; hi = k.least_hi }; most = record { lo = k.most_lo; hi = k.most_hi } } };

    ghost inverse = { λ c. record { least_lo = c.least.lo; least_hi = c.least.hi; most_lo = c.most.lo; most_hi = c.most.hi } };
}

// An end of a cell in 64 bits.
fn kept_end(end: i128) -> i64
    requires { IsModest end }
    ensures { result ≡ end }
{
    end as i64
}

impl KeptCell {
    /// The same cell, kept.
    pub fn of(cell: Cell) -> KeptCell
        requires { CellIsModest cell }
        ensures { result ≡ cell }
    {
        KeptCell {
            least_lo: kept_end(cell.least.lo),
            least_hi: kept_end(cell.least.hi),
            most_lo: kept_end(cell.most.lo),
            most_hi: kept_end(cell.most.hi),
        }
    }

    /// The cell that is kept.
    pub fn cell(&self) -> Cell
        ensures cell { result ≡ self.now }
        ensures least { IsShort result.least }
        ensures most { IsShort result.most }
    {
        Cell {
            least: Span {
                lo: self.least_lo as i128,
                hi: self.least_hi as i128,
            },
            most: Span {
                lo: self.most_lo as i128,
                hi: self.most_hi as i128,
            },
        }
    }
}
