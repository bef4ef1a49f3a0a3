// The limits of a sheet.

/// The most documents that a sheet has an entry of, over all topics.
pub const ENTRY_LIMIT: usize = 1_000_000;

/// The greatest stamp. The least is 1.
pub const GREATEST_STAMP: u64 = 1_000_000_000_000_000_000;

/// The least grade.
pub const LEAST_GRADE: i64 = -1_000;

/// The greatest grade.
pub const GREATEST_GRADE: i64 = 1_000;
