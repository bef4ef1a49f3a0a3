// Precision by the documents that each of two runs alone has among its first k.
ghost use Rattle.std.specs.Prelude.{◌≡◌, ℕ, ◌+◌, ◌≤◌, List};
ghost use Rattle.desk_model.specs.Limits.{RANK_LIMIT};
ghost use Rattle.desk_model.specs.MeasureText.{IsMeasure};
ghost use Rattle.desk_model.specs.declared.types.Mark.{Mark as M};
ghost use Rattle.desk_model.specs.declared.types.MeasureName.TheVariants.{Precision as P};
ghost use Rattle.measure_core.specs.Laws.{AreMet};
ghost use Rattle.measure_core.specs.Numbers.{exact_cell};
ghost use Rattle.topic_counts.specs.Own.{AreOwnCounts};

use crate::precision::Precision;
use measure_core::{Cell, OwnMeasure};
use topic_counts::Span;
use topic_counts::counts::{Counts, OwnCounts};

/// One number as both ends.
fn point(number: i64) -> Span
    ensures lo { result.lo ≡ number }
    ensures hi { result.hi ≡ number }
{
    let end = i128::from(number);
    Span { lo: end, hi: end }
}

/// The cell of two runs, from the counts of the documents that each alone has among its first k.
pub fn cell_between(own: OwnCounts) -> Cell
    requires first { own.first.relevant + own.first.unjudged ≤ RANK_LIMIT }
    requires second { own.second.relevant + own.second.unjudged ≤ RANK_LIMIT }
    ensures { (k : ℕ) (marks : List M) (a b : List ℕ) → IsMeasure (P k) → AreMet marks a b →
        AreOwnCounts k marks a b own.first → AreOwnCounts k marks b a own.second →
        result ≡ exact_cell (P k) marks a b }
{
    let least = own.first.least() - own.second.most();
    let most = own.first.most() - own.second.least();
    Cell {
        least: point(least),
        most: point(most),
    }
}

impl OwnMeasure for Precision {
    ghost use Rattle.desk_model.specs.declared.types.MeasureName.TheVariants.{Precision as P};
    ghost use Rattle.measure_core.specs.Numbers.{exact_cell};

    ghost depth_of = { λ k. k };

    ghost own_cell_of = { λ k. exact_cell (P k) };

    fn depth(&self) -> u32 {
        self.k
    }

    fn own_cell(&self, own: OwnCounts, _all: Counts) -> Cell {
        // What is kept of k makes it a depth.
        let _ = &self.k;
        cell_between(own)
    }
}
