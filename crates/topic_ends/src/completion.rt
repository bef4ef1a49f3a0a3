//! The ends of a difference in two completions.

/// The upper ends of two differences: of the first run's score less the second's in a low completion, and of the
/// second's less the first's in a high one.
#[derive(Clone, Copy)]
pub struct UpperEnds {
    pub low: i128,
    pub high: i128,
}
