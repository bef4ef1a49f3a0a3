// Recall by the documents that each of two runs alone has among its first k.
use crate::recall::{Recall, least_span};
use measure_core::{Cell, OwnMeasure};
use topic_counts::counts::{Counts, OwnCounts};

impl OwnMeasure for Recall {
    ghost use Rattle.desk_model.specs.declared.types.MeasureName.TheVariants.{Recall as R};
    ghost use Rattle.measure_core.specs.Numbers.{exact_cell};

    ghost depth_of = { λ k. k };

    ghost own_cell_of = { λ k. exact_cell (R k) };

    fn depth(&self) -> u32 {
        self.k
    }

    fn own_cell(&self, own: OwnCounts, all: Counts) -> Cell {
        // What is kept of k makes it a depth.
        let _ = &self.k;
        Cell {
            least: least_span(own.first, own.second, all),
            most: least_span(own.second, own.first, all).negate(),
        }
    }
}
