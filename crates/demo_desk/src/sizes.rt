// How much the demo has.

/// The topics of the demo.
pub const TOPICS: u32 = 50;

/// The documents of a topic.
pub const DOCUMENTS: u32 = 2_000;

/// The runs of the demo.
pub const RUNS: u32 = 8;

/// The documents of a topic in a run.
pub const PLACES: u32 = 500;
