// What files used.

/// What the files read so far used of the limits on all of them.
#[derive(Clone, Copy, PartialEq, Eq)]
pub struct Used {
    /// How many rows of runs were kept.
    pub rows: u32,
    /// The bytes of the document names of all kept rows of the runs and of all rows of the qrels.
    pub name_bytes: u32,
}
