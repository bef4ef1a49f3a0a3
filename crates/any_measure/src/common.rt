use crate::any::AnyMeasure;
use desk_model::{MeasureName, Memory};
use measure_core::Maker;
use std::alloc::Global;

/// The maker of every measure.
#[derive(Drop)]
pub struct Common;

impl Maker for Common {
    type Made = AnyMeasure;

    fn make(&self, alloc: Global, name: MeasureName) -> Result<AnyMeasure, Memory> {
        AnyMeasure::new(alloc, name)
    }
}
