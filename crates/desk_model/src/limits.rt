/// The most runs of a desk.
pub const MOST_RUNS: usize = 256;
