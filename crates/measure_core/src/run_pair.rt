/// Two runs of a desk by their numbers, from 0.
#[derive(Clone, Copy, PartialEq, Eq)]
pub struct RunPair {
    pub first: u32,
    pub second: u32,
}
