// When a row of a sheet was written, and with what grade.

/// The stamp and the grade of a row.
#[derive(Clone, Copy)]
pub struct Written {
    pub stamp: u64,
    pub grade: i16,
}
