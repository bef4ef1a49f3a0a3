// The marks by the grades of the judgements file, and the pools of a depth.
ghost use Rattle.std.specs.Prelude.{◌≡◌, [], true, length, map, slice_index_or, Some, IfOk};
ghost use Rattle.desk_model.specs.Closing.{closed_topic, closed_under};
ghost use Rattle.desk_model.specs.Desk.{file_marks};
ghost use Rattle.desk_model.specs.Graded.{pool_rows};

use crate::book::TopicBook;
use crate::desk::Desk;
use crate::grading::mark;
use crate::topic_pool::pool_of_topic;
use crate::types::Mark;
use std::alloc::{AllocError, Global};

/// The marks of all topics where there is no depth.
pub fn file_topics(alloc: Global, desk: &Desk, level: u32) -> Result<Vec<Vec<Mark>>, AllocError>
    ensures { IfOk result (λ topics. map (λ each. each.items) topics.items ≡
        map (file_marks level) desk.now.topics) }
{
    let mut topics = Vec::new(alloc);
    for t in 0..desk.topic_count() {
        topics.push(marks_of_topic(alloc, desk.topic(t), level)?)?;
    }
    Ok(topics)
}

fn marks_of_topic(alloc: Global, book: &TopicBook, level: u32) -> Result<Vec<Mark>, AllocError>
    ensures { IfOk result (λ marks. marks.items ≡ file_marks level book.now) }
{
    let mut marks = Vec::with_capacity(alloc, book.doc_count() as usize)?;
    for doc in 0..book.doc_count() {
        marks.push(mark(book.file_grade(doc), level, true))?;
    }
    Ok(marks)
}

/// The marks of all topics under a depth, and whether each document is in its pool.
pub fn closed_topics(
    alloc: Global,
    desk: &Desk,
    level: u32,
    depth: u32,
) -> Result<(Vec<Vec<Mark>>, Vec<Vec<bool>>), AllocError>
    ensures marks { IfOk result (λ both. map (λ each. each.items) both.0.items ≡
        closed_under desk.now (Some depth) (map (file_marks level) desk.now.topics)) }
    ensures pools { IfOk result (λ both. map (λ each. each.items) both.1.items ≡
        pool_rows desk.now depth) }
{
    let mut topics = Vec::new(alloc);
    let mut pools = Vec::new(alloc);
    for t in 0..desk.topic_count() {
        let pool = pool_of_topic(alloc, desk, t, depth)?;
        let marks = closed_marks(alloc, desk.topic(t), level, &pool)?;
        topics.push(marks)?;
        pools.push(pool)?;
    }
    Ok((topics, pools))
}

// The marks of a topic whose documents outside the pool are closed.
fn closed_marks(
    alloc: Global,
    book: &TopicBook,
    level: u32,
    pool: &[bool],
) -> Result<Vec<Mark>, AllocError>
    requires { length pool.now ≡ length book.now.grades }
    ensures { IfOk result (λ marks. marks.items ≡
        closed_topic (λ doc. slice_index_or pool.now doc true) (file_marks level book.now)) }
{
    let mut marks = Vec::with_capacity(alloc, book.doc_count() as usize)?;
    for doc in 0..book.doc_count() {
        marks.push(mark(book.file_grade(doc), level, pool[doc as usize]))?;
    }
    Ok(marks)
}
