// What a command works with.

use measure_core::Maker;
use std::alloc::Global;

/// What a command works with: memory, and what makes the measure of a name.
#[derive(Drop)]
pub struct Tools<'a, P: Maker> {
    pub alloc: Global,
    pub maker: &'a P,
}
