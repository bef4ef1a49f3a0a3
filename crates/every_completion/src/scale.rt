//! What rankings are measured by.
ghost use Rattle.std.specs.Prelude.{◌≤◌};
ghost use Rattle.desk_model.specs.Limits.{PARTS_OF_ONE};
ghost use Rattle.every_completion.specs.Walk.{LooksAtNoTail, LooksAtNoTail-prop};

use desk_model::MeasureName;

/// A measure, and how many units make a score of 1. Its facts: the measure looks at no place past a run's end, and the
/// unit is at most 10^18.
#[derive(Clone, Copy)]
pub struct Scale {
    pub measure: MeasureName,
    pub unit: u64,
    pub ghost untailed: { LooksAtNoTail measure } by { LooksAtNoTail-prop measure },
    pub ghost short: { unit ≤ PARTS_OF_ONE },
}
