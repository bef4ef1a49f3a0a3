// The limits of a qrels file.

/// The most topics.
pub const MOST_TOPICS: usize = 10_000;

/// The most rows of a qrels file.
pub const MOST_QRELS_ROWS: u32 = 5_000_000;

/// The least grade.
pub const LEAST_GRADE: i64 = -1_000;

/// The greatest grade.
pub const GREATEST_GRADE: i64 = 1_000;
