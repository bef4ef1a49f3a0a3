// What a session is over, and what it keeps between its lines.
ghost use Rattle.std.specs.Prelude.{◌≡◌, [], None, IfOk};
ghost use Rattle.desk_model.specs.declared.types.MeasureName.{MeasureName as N};
ghost use Rattle.session_replies.specs.Replies.{Setting};
ghost use Rattle.session_replies.specs.State.{IsReadyForLine};

use desk_model::{Desk, Marks, MeasureName, Memory};
use desk_report::Grading;
use judge_session::Session;
use measure_core::Measure;
use next_document::Weights;
use pair_table::Table;
use std::alloc::Global;

/// What a session is over.
#[derive(Clone, Copy)]
pub struct Given<'a> {
    pub desk: &'a Desk,
    pub measure: &'a MeasureName,
    pub grading: Grading,
}

/// What a session keeps between its lines: the changes so far, the marks of the documents by the judgements in force,
/// under the depth where there is one, a table of these marks, once a line asked for one, and the totals of the documents
/// by this table, once a line asked for the next document.
#[derive(Drop)]
pub struct Judging<M: Measure> {
    pub session: Session,
    pub marks: Marks,
    pub table: Option<Table<M>>,
    pub weights: Option<Weights>,
}

impl<M: Measure> Judging<M> {
    /// A session before its first line: nothing was judged, and the marks are those of the judgements file, under the
    /// depth where there is one.
    ///
    /// # Errors
    /// `Memory`: out of memory.
    pub fn new(alloc: Global, desk: &Desk, grading: Grading) -> Result<Judging<M>, Memory>
        ensures session { IfOk result (λ judging. judging.session ≡ []) }
        ensures table { IfOk result (λ judging. judging.table ≡ None) }
        ensures ready { IfOk result (λ judging. (measure : N) →
            IsReadyForLine (record { name = M.measured; cell = M.cell_of; bound = M.bounds_of })
            (record {
              measure = measure;
              level = grading.level;
              depth = grading.depth;
              desk =
                  desk.now;
            }) judging) }
    {
        desk.valid();
        let marks = Marks::of_file(alloc, desk, grading.level(), grading.depth())?;
        Ok(Judging {
            session: Session::new(alloc),
            marks,
            table: None,
            weights: None,
        })
    }
}
