/// What is kept of a caller.
#[derive(Clone, Copy, PartialEq, Eq)]
pub struct ChangeCounts {
    /// How many live changes there are.
    pub live: u32,
    /// How many undone changes there are.
    pub undone: u32,
    /// The last live change's topic by its number in the desk, and its document by its number in the topic's universe,
    /// both from 0. `None` exactly where no change is live.
    pub last: Option<(u32, u32)>,
}
