// The limits of the runs.

/// The most rows that a run may have on one topic.
pub const MOST_RANKS: usize = 10_000;

/// The most kept rows of all runs together.
pub const MOST_RUN_ROWS: u32 = 20_000_000;
