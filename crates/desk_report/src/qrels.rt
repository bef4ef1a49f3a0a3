// The judgements in force on a topic, as lines of a judgements file.
ghost use Rattle.std.specs.Prelude.{◌≡◌, ◌<◌, ◌++◌, flat_map, length, IfOk, OnOk};
ghost use Rattle.desk_model.specs.Named.{book_at};
ghost use Rattle.desk_report.specs.Table.{ended};
ghost use Rattle.desk_report.specs.Judging.{qrels_line, qrels_lines_of, topic_qrels_text};

use desk_model::{Desk, Memory, TopicBook, push_grade};
use std::alloc::{AllocError, Global};

const NO_GRADE: i32 = -1;

fn push_line(out: &mut Vec<u8>, topic: &[u8], doc: &[u8], grade: i32) -> Result<(), AllocError>
    ensures { OnOk result (out.new.items ≡ out.old.items ++
        ended (qrels_line topic.now doc.now grade)) }
{
    out.extend_from_slice(topic)?;
    out.extend_from_slice(b" 0 ")?;
    out.extend_from_slice(doc)?;
    out.extend_from_slice(b" ")?;
    push_grade(out, grade)?;
    out.extend_from_slice(b"\n")
}

// The line of a document, if it has one, by its grade in the judgements file and its grade in force.
fn push_document(
    out: &mut Vec<u8>,
    topic: &[u8],
    doc: &[u8],
    file: Option<i32>,
    grade: Option<i32>,
) -> Result<(), AllocError>
    ensures { OnOk result (out.new.items ≡ out.old.items ++
        flat_map ended (qrels_lines_of topic.now doc.now file grade)) }
{
    match (file, grade) {
        (_, Some(grade)) => push_line(out, topic, doc, grade),
        (Some(_), None) => push_line(out, topic, doc, NO_GRADE),
        (None, None) => Ok(()),
    }
}

fn push_topic(out: &mut Vec<u8>, book: &TopicBook, grades: &[Option<i32>]) -> Result<(), AllocError>
    requires { length grades.now ≡ length book.now.docs }
    ensures { OnOk result (out.new.items ≡ out.old.items ++ topic_qrels_text book.now grades.now) }
{
    for doc in 0..book.doc_count() {
        push_document(
            out,
            book.name(),
            book.doc_name(doc),
            book.file_grade(doc),
            grades[doc as usize],
        )?;
    }
    Ok(())
}

/// The judgements in force on a topic as lines `TOPIC 0 DOC GRADE`, the documents ascending: a line for each document
/// that the judgements file lists or that has a grade in force, with `-1` where it has none. Topics are numbered from 0,
/// and the grades in force are by document, `None` where it has none.
///
/// # Errors
/// `Memory`: out of memory.
pub fn qrels_text(
    alloc: Global,
    desk: &Desk,
    topic: u32,
    grades: &[Option<i32>],
) -> Result<Vec<u8>, Memory>
    requires topic { topic < length desk.now.topics }
    requires count { length grades.now ≡ length (book_at desk.now topic).docs }
    ensures { IfOk result (λ text. text.items ≡
        topic_qrels_text (book_at desk.now topic) grades.now) }
{
    let mut out = Vec::new(alloc);
    push_topic(&mut out, desk.topic(topic), grades)?;
    Ok(out)
}
