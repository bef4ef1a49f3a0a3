// The limit of a desk.

/// The most pairs of runs times topics.
pub const MOST_CELLS: u64 = 10_000_000;
