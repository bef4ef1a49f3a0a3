// Names and scores.
ghost use Rattle.std.specs.Prelude.{◌≡◌, ◌++◌, OnOk};
ghost use Rattle.demo_desk.specs.Texts.{topic_text, document_text, tag_text, score_text};

use crate::numbers::{DocumentNumber, RunNumber, TopicNumber};
use desk_model::{push_digits_after_first, push_number};
use std::alloc::AllocError;

/// Puts the name of a topic.
pub fn push_topic(out: &mut Vec<u8>, topic: TopicNumber) -> Result<(), AllocError>
    ensures { OnOk result (out.new.items ≡ out.old.items ++ topic_text topic.number) }
{
    push_number(out, 401 + topic.number)
}

/// Puts the name of a document.
pub fn push_document(out: &mut Vec<u8>, doc: DocumentNumber) -> Result<(), AllocError>
    ensures { OnOk result (out.new.items ≡ out.old.items ++ document_text doc.number) }
{
    out.push(b'D')?;
    push_digits_after_first(out, 10_000 + doc.number as u64)
}

/// Puts the name of a run.
pub fn push_tag(out: &mut Vec<u8>, run: RunNumber) -> Result<(), AllocError>
    ensures { OnOk result (out.new.items ≡ out.old.items ++ tag_text run.number) }
{
    out.push(b'S')?;
    push_number(out, 1 + run.number)
}

/// Puts a score, which is given in thousandths.
pub fn push_score(out: &mut Vec<u8>, score: u32) -> Result<(), AllocError>
    ensures { OnOk result (out.new.items ≡ out.old.items ++ score_text score) }
{
    push_number(out, score / 1_000)?;
    out.push(b'.')?;
    push_digits_after_first(out, 1_000 + (score % 1_000) as u64)
}
