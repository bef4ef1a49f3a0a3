use topic_counts::Span;

/// Two runs on a topic: the ends of the least difference, the first run's score minus the second's,
/// over all completions, and those of the greatest, both in units of the measure.
#[derive(Clone, Copy, PartialEq, Eq)]
pub struct Cell {
    pub least: Span,
    pub most: Span,
}
