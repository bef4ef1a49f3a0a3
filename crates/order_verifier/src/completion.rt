//! The ends of a difference in the two completions of a claim that is open.

/// The upper end of the difference in a low completion, and the lower end in a high one: on a topic, or summed over
/// topics.
#[derive(Clone, Copy)]
pub struct CompletionEnds {
    pub low: i128,
    pub high: i128,
}
