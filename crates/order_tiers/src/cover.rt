/// A covering pair: the first run is certified above the second, and no run is between the two. Runs are numbered from
/// 0.
#[derive(Clone, Copy, PartialEq, Eq)]
pub struct Cover {
    pub first: u32,
    pub second: u32,
    /// On how many topics the first run's score is greater in every completion by the least difference of the two.
    pub wins: u32,
    /// On how many the second run's is, by the greatest difference.
    pub losses: u32,
}
