/// A document's number with its rank in a run, from 1.
#[derive(Clone, Copy, PartialEq, Eq)]
pub struct Placed {
    pub doc: u32,
    pub rank: u32,
}
