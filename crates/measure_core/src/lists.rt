// Lists of the documents that a completion makes relevant though they are not judged, by their numbers.
ghost use Rattle.std.specs.Prelude.{◌≡◌, ◌≤◌, ◌++◌, ◌&&◌, false, length, slice_index_or, OnOk};
ghost use Rattle.desk_model.specs.Limits.{DOCUMENT_LIMIT};
ghost use Rattle.desk_model.specs.Mark.{is_unjudged};
ghost use Rattle.measure_core.specs.Lists.{added_documents};

use desk_model::{Mark, Memory};

/// Whether a completion makes a document with this mark relevant though it is not judged.
fn is_added(mark: Mark, relevant: bool) -> bool
    ensures { result ≡ (is_unjudged mark && relevant) }
{
    mark == Mark::Unjudged && relevant
}

/// Appends the unjudged documents among those that are relevant by `truth`, ascending.
///
/// # Errors
/// `Memory`: out of memory. It is then not known what `docs` holds.
pub fn push_added(marks: &[Mark], truth: &[bool], docs: &mut Vec<u32>) -> Result<(), Memory>
    requires truth { length truth.now ≡ length marks.now }
    requires small { length marks.now ≤ DOCUMENT_LIMIT }
    ensures { OnOk result (docs.new.items ≡ docs.old.items ++
        added_documents marks.now (λ doc. slice_index_or truth.now doc false)) }
{
    for doc in 0..marks.len() {
        if is_added(marks[doc], truth[doc]) {
            docs.push(doc as u32)?;
        }
    }
    Ok(())
}
