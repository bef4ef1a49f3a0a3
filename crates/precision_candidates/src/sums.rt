//! A sum of precisions.

/// How many true places were met, and the sum of their precisions, each in parts of 10^18.
#[derive(Clone, Copy, PartialEq, Eq)]
pub struct Sum {
    pub found: u64,
    pub parts: u128,
}

impl Sum {
    /// The sum of no places.
    pub const NONE: Sum = Sum { found: 0, parts: 0 };
}
