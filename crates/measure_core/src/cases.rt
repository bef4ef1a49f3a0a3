// The truth values of the documents in a case.
ghost use Rattle.std.specs.Prelude.{◌≡◌, ℕ, ◌≤◌, Bool as Truth, length, IfOk};
ghost use Rattle.desk_model.specs.Completion.{with_picked};
ghost use Rattle.desk_model.specs.Limits.{DOCUMENT_LIMIT};
ghost use Rattle.measure_core.specs.Laws.{AreValues};

use desk_model::{Mark, Memory};
use std::alloc::Global;
use topic_counts::topic::is_true;

/// Which unjudged documents a case makes relevant.
pub trait Picks {
    /// What `is_picked` answers.
    ghost picks: { Self → ℕ → Truth };

    /// Whether the case makes an unjudged document relevant, by its number from 0.
    fn is_picked(&self, doc: u32) -> bool
        ensures { result ≡ picks self.now doc };
}

/// Whether each document is relevant in a case, in the order of the documents.
///
/// # Errors
/// `Memory`: out of memory.
pub fn case_values<P: Picks>(alloc: Global, picks: &P, marks: &[Mark]) -> Result<Vec<bool>, Memory>
    requires { length marks.now ≤ DOCUMENT_LIMIT }
    ensures { IfOk result (λ values.
        AreValues (with_picked marks.now (P.picks picks.now)) (length marks.now) values.items) }
{
    let mut values = Vec::new(alloc);
    for (place, mark) in marks.iter().enumerate() {
        let value = is_true(picks.is_picked(place as u32), *mark);
        values.push(value)?;
    }
    Ok(values)
}
