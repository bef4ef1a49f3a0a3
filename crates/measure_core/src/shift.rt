ghost use Rattle.measure_core.specs.Shifts.{HasRoom, IsShifted};

/// Whether weights are added to totals or taken back from them.
#[derive(Clone, Copy, PartialEq, Eq)]
pub enum Shift {
    /// They are added.
    Add,
    /// They were added before, and are taken back.
    TakeBack,
}

impl Shift {
    /// A total with a weight added or taken back.
    #[inline]
    pub fn apply(self, total: u128, weight: u128) -> u128
        requires { HasRoom self weight total }
        ensures { IsShifted self weight total result }
    {
        match self {
            Shift::Add => total + weight,
            Shift::TakeBack => total - weight,
        }
    }
}
