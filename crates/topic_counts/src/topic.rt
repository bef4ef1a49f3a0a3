ghost use Rattle.std.specs.Prelude.{◌≡◌, ◌+◌, ◌≤◌, length, count_by, true, false};
ghost use Rattle.desk_model.specs.Limits.{DOCUMENT_LIMIT};
ghost use Rattle.desk_model.specs.Completion.{picked_value, with_picked};
ghost use Rattle.desk_model.specs.Score.{true_count};

use crate::counts::Counts;
use desk_model::Mark;

/// Whether a document with this mark is relevant, where an unjudged one is if it is picked.
pub fn is_true(picked: bool, mark: Mark) -> bool
    ensures { result ≡ picked_value picked mark }
{
    mark == Mark::Relevant || (picked && mark == Mark::Unjudged)
}

/// How many marks are counted at a time: as many whole vectors of 32 as a byte can count.
const BLOCK: usize = 224;

/// The counts of the documents with these marks, counted in bytes, which the compiler makes vector
/// code of.
fn block_documents(marks: &[Mark]) -> Counts
    requires { length marks.now ≤ 255 }
    ensures relevant { result.relevant ≡ count_by (picked_value false) marks.now }
    ensures either { result.relevant + result.unjudged ≡ count_by (picked_value true) marks.now }
{
    let mut relevant: u8 = 0;
    let mut unjudged: u8 = 0;
    for mark in marks {
        relevant += u8::from(*mark == Mark::Relevant);
        unjudged += u8::from(*mark == Mark::Unjudged);
    }
    Counts {
        relevant: u32::from(relevant),
        unjudged: u32::from(unjudged),
    }
}

/// The counts of all documents of a topic.
pub fn all_documents(marks: &[Mark]) -> Counts
    requires { length marks.now ≤ DOCUMENT_LIMIT }
    ensures least { result.relevant ≡
        true_count (with_picked marks.now (λ _. false)) (length marks.now) }
    ensures most { result.relevant + result.unjudged ≡
        true_count (with_picked marks.now (λ _. true)) (length marks.now) }
    ensures few { result.relevant + result.unjudged ≤ length marks.now }
{
    let mut counts = Counts::NONE;
    for block in marks.chunks(BLOCK) {
        let more = block_documents(block);
        counts = Counts {
            relevant: counts.relevant + more.relevant,
            unjudged: counts.unjudged + more.unjudged,
        };
    }
    counts
}
