// The lines of a change, of a pool and of the next document.
ghost use Rattle.std.specs.Prelude.{◌≡◌, ◌<◌, ◌++◌, ◌∷◌, [], codes, decimal, length, slice_index_or, option_copied, IfOk, IfSome, OnOk};
ghost use Rattle.desk_model.specs.Named.{book_at};
ghost use Rattle.desk_report.specs.Table.{ended};
ghost use Rattle.desk_report.specs.Judging.{grade_text, changed_line, pool_line, next_line};

use desk_model::{Desk, Memory, PoolCount, push_grade, push_number, push_whole};
use judge_session::Changed;
use next_document::Proposal;
use std::alloc::{AllocError, Global};

// A grade in force, or `-`.
fn push_in_force(out: &mut Vec<u8>, grade: Option<i32>) -> Result<(), AllocError>
    ensures { OnOk result (out.new.items ≡ out.old.items ++ grade_text grade) }
{
    match grade {
        Some(grade) => push_grade(out, grade),
        None => out.extend_from_slice(b"-"),
    }
}

fn push_names(out: &mut Vec<u8>, word: &[u8], topic: &[u8], doc: &[u8]) -> Result<(), AllocError>
    ensures { OnOk result (out.new.items ≡ out.old.items ++
        (word.now ++ 32 ∷ topic.now ++ 32 ∷ doc.now)) }
{
    out.extend_from_slice(word)?;
    out.extend_from_slice(b" ")?;
    out.extend_from_slice(topic)?;
    out.extend_from_slice(b" ")?;
    out.extend_from_slice(doc)
}

fn push_changed(
    out: &mut Vec<u8>,
    word: &[u8],
    topic: &[u8],
    doc: &[u8],
    grade: Option<i32>,
) -> Result<(), AllocError>
    ensures { OnOk result (out.new.items ≡ out.old.items ++
        ended (changed_line word.now topic.now doc.now grade)) }
{
    push_names(out, word, topic, doc)?;
    out.extend_from_slice(b" ")?;
    push_in_force(out, grade)?;
    out.extend_from_slice(b"\n")
}

/// The line `WORD TOPIC DOC NOW` with its line feed: the names of the topic and the document of a change, whose
/// numbers are from 0, and the document's grade in force after it, `-` where it has none.
///
/// # Errors
/// `Memory`: out of memory.
pub fn changed_line(
    alloc: Global,
    word: &[u8],
    desk: &Desk,
    changed: &Changed,
) -> Result<Vec<u8>, Memory>
    requires topic { changed.now.topic < length desk.now.topics }
    requires doc { changed.now.doc < length (book_at desk.now changed.now.topic).docs }
    ensures { IfOk result (λ line. line.items
        ≡ ended (changed_line word.now (book_at desk.now changed.now.topic).name
        (slice_index_or (book_at desk.now changed.now.topic).docs changed.now.doc [])
        changed.now.grade)) }
{
    let book = desk.topic(changed.topic);
    let doc = book.doc_name(changed.doc);
    let mut out = Vec::new(alloc);
    push_changed(&mut out, word, book.name(), doc, changed.grade)?;
    Ok(out)
}

// A number after a space.
fn push_count(out: &mut Vec<u8>, number: u32) -> Result<(), AllocError>
    ensures { OnOk result (out.new.items ≡ out.old.items ++ 32 ∷ decimal number) }
{
    out.extend_from_slice(b" ")?;
    push_number(out, number)
}

fn push_pool(out: &mut Vec<u8>, count: &PoolCount) -> Result<(), AllocError>
    ensures { OnOk result (out.new.items ≡ out.old.items ++ ended (pool_line count.now)) }
{
    out.extend_from_slice(b"pool")?;
    push_count(out, count.size)?;
    push_count(out, count.judged)?;
    push_count(out, count.relevant)?;
    push_count(out, count.unjudged)?;
    out.extend_from_slice(b"\n")
}

/// The line `pool SIZE JUDGED RELEVANT UNJUDGED` with its line feed.
///
/// # Errors
/// `Memory`: out of memory.
pub fn pool_line(alloc: Global, count: &PoolCount) -> Result<Vec<u8>, Memory>
    ensures { IfOk result (λ line. line.items ≡ ended (pool_line count.now)) }
{
    let mut out = Vec::new(alloc);
    push_pool(&mut out, count)?;
    Ok(out)
}

// The line of a document that is proposed.
fn push_proposed(
    out: &mut Vec<u8>,
    topic: &[u8],
    doc: &[u8],
    weight: u128,
) -> Result<(), AllocError>
    ensures { OnOk result (out.new.items ≡ out.old.items ++ ended (codes "next " ++ topic.now ++ 32 ∷ doc.now ++ 32 ∷ decimal weight)) }
{
    push_names(out, b"next", topic, doc)?;
    out.extend_from_slice(b" ")?;
    push_whole(out, weight)?;
    out.extend_from_slice(b"\n")
}

fn push_proposal(
    out: &mut Vec<u8>,
    desk: &Desk,
    proposal: Option<&Proposal>,
) -> Result<(), AllocError>
    requires topic { IfSome (option_copied proposal) (λ p. p.topic < length desk.now.topics) }
    requires doc { IfSome (option_copied proposal) (λ p. p.doc <
        length (book_at desk.now p.topic).docs) }
    ensures { OnOk result (out.new.items ≡ out.old.items ++
        ended (next_line desk.now (option_copied proposal.entry))) }
{
    match proposal {
        Some(proposal) => {
            let book = desk.topic(proposal.topic);
            let doc = book.doc_name(proposal.doc);
            push_proposed(out, book.name(), doc, proposal.weight)
        }
        None => out.extend_from_slice(b"next none\n"),
    }
}

/// The line `next TOPIC DOC WEIGHT` of a proposal with its line feed: the names of its topic and its document, whose
/// numbers are from 0, and its total weight in units of the measure. `next none` where there is no proposal.
///
/// # Errors
/// `Memory`: out of memory.
pub fn next_line_text(
    alloc: Global,
    desk: &Desk,
    proposal: Option<&Proposal>,
) -> Result<Vec<u8>, Memory>
    requires topic { IfSome (option_copied proposal) (λ p. p.topic < length desk.now.topics) }
    requires doc { IfSome (option_copied proposal) (λ p. p.doc <
        length (book_at desk.now p.topic).docs) }
    ensures { IfOk result (λ line. line.items ≡
        ended (next_line desk.now (option_copied proposal.entry))) }
{
    let mut out = Vec::new(alloc);
    push_proposal(&mut out, desk, proposal)?;
    Ok(out)
}
