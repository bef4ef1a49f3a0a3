ghost use Rattle.std.specs.Prelude.{IfOk};
ghost use Rattle.desk_model.specs.MeasureText.{IsMeasure};
ghost use Rattle.measure_core.specs.Made.{IsMadeFor};

use crate::measure::Measure;
use desk_model::{MeasureName, Memory};
use std::alloc::Global;

/// What makes the measure of a name.
pub trait Maker {
    /// The measures that it makes.
    type Made: Measure;

    /// The measure of this name: its cells and bounds are the floors and ceilings of the extremes
    /// over all completions, and for rank-biased precision the sums of shares and of weights.
    fn make(&self, alloc: Global, name: MeasureName) -> Result<Self::Made, Memory>
        requires measure { IsMeasure name }
        ensures { IfOk result (λ made.
            IsMadeFor name (Self.Made.measured made) (Self.Made.cell_of made)
            (Self.Made.bounds_of made)) };
}
