// The limit on all files together.

/// The most bytes that the document names of all kept rows of all files may have together.
pub const MOST_NAME_BYTES: u32 = 268_435_456;
