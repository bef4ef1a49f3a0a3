// Rows that proofs alone read.
ghost use Rattle.std.specs.Prelude.{◌≡◌, List, []};
ghost use Rattle.std.specs.Borrow.{ftrue};
ghost use Rattle.file_rows.specs.Grouped.{Valued};

use desk_text::Score;
use file_rows::ValuedRows;
use std::marker::Model;

/// The rows by which documents are ranked, which clauses name as `rows`. It takes no memory, and its methods do nothing at run time.
#[derive(Drop)]
pub struct ScoredRows {
    pub ghost rows: { List Valued },
}

impl Model for ScoredRows {
    ghost also_owns = { λ _. ftrue };
}

impl ScoredRows {
    /// No row.
    pub fn new() -> ScoredRows
        ensures { result.rows ≡ [] }
    {
        ScoredRows {}
    }

    /// The rows of a topic.
    pub fn of(_rows: &ValuedRows<Score>) -> ScoredRows
        ensures { result.rows ≡ _rows.now }
    {
        ScoredRows {}
    }
}
