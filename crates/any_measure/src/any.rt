ghost use Rattle.std.specs.Prelude.{IfOk};
ghost use Rattle.desk_model.specs.MeasureText.{IsMeasure};
ghost use Rattle.measure_core.specs.Made.{IsMadeFor};
ghost use Rattle.any_measure.specs.Any.{measured_by, cell_by, bounds_by};

use average_precision::AveragePrecision;
use desk_model::{MeasureName, Memory};
use precision::Precision;
use rbp::Rbp;
use recall::Recall;
use recip_rank::RecipRank;
use rprec::Rprec;
use std::alloc::Global;

/// A measure of the desk.
#[derive(Drop)]
pub enum AnyMeasure {
    /// `P_k`.
    Precision(Precision),
    /// `recall_k`.
    Recall(Recall),
    /// `Rprec`.
    RPrecision(Rprec),
    /// `recip_rank`.
    Reciprocal(RecipRank),
    /// `rbp_p`.
    Biased(Rbp),
    /// `map`.
    Average(AveragePrecision),
}

impl AnyMeasure {
    /// The measure of this name.
    pub fn new(alloc: Global, name: MeasureName) -> Result<AnyMeasure, Memory>
        requires measure { IsMeasure name }
        ensures { IfOk result (λ made.
            IsMadeFor name (measured_by made) (cell_by made) (bounds_by made)) }
    {
        match name {
            MeasureName::Precision(k) => Ok(AnyMeasure::Precision(Precision::new(k))),
            MeasureName::Recall(k) => Ok(AnyMeasure::Recall(Recall::new(k))),
            MeasureName::RPrecision => Ok(AnyMeasure::RPrecision(Rprec::new())),
            MeasureName::Reciprocal => {
                Ok(AnyMeasure::Reciprocal(RecipRank::with_worths(alloc)?))
            }
            MeasureName::Biased { top, bottom } => {
                Ok(AnyMeasure::Biased(Rbp::new(alloc, top, bottom)?))
            }
            MeasureName::AveragePrecision => {
                Ok(AnyMeasure::Average(AveragePrecision::with_parts(alloc)?))
            }
        }
    }
}
