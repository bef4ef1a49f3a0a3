// The grades in force after a list of changes.
ghost use Rattle.std.specs.Prelude.{◌≡◌, ◌<◌, ℕ, ℤ, length, map, Option, Some, if◌then◌else◌, IfOk, slice_index_or};
ghost use Rattle.judge_session.specs.InForce.{grade_in_force, grades_in_force, told_of, found_document, is_live_on, grade_after, counted_grade, IsSessionOf, IsOfDesk};
ghost use Rattle.desk_model.specs.Named.{book_at};
ghost use Rattle.desk_model.specs.Book.{file_grade_of};
ghost use Rattle.std.specs.Option.{option_or};
ghost use Rattle.judge_session.specs.declared.change.Change.{Change};

use crate::answers::{Changed, JudgeFault};
use crate::change::Change;
use crate::marking::{counted, last_grade};
use desk_model::{Desk, Memory};
use std::alloc::{AllocError, Global};

/// The grade in force of a document, by at most one walk of the list.
pub fn in_force(changes: &[Change], desk: &Desk, topic: u32, doc: u32) -> Option<i32>
    requires topic { topic < length desk.now.topics }
    requires doc { doc < length (book_at desk.now topic).docs }
    ensures { result ≡ grade_in_force desk.now topic doc changes.now }
{
    let file = desk.topic(topic).file_grade(doc);
    counted(last_grade(changes, topic, doc, file))
}

/// The numbers of a topic and of its document, by their names.
pub fn find_document(desk: &Desk, topic: &[u8], doc: &[u8]) -> Result<(u32, u32), JudgeFault>
    ensures found { result ≡ found_document desk.now topic.now doc.now }
    ensures topic { IfOk result (λ place. place.0 < length desk.now.topics) }
    ensures doc { IfOk result (λ place. place.1 < length (book_at desk.now place.0).docs) }
{
    match desk.find_topic(topic) {
        Some(topic) => match desk.topic(topic).find(doc) {
            Some(doc) => Ok((topic, doc)),
            None => Err(JudgeFault::UnknownDocument),
        },
        None => Err(JudgeFault::UnknownTopic),
    }
}

/// What is told of the change at a place.
pub fn told_at(changes: &[Change], desk: &Desk, place: usize) -> Changed
    requires place { place < length changes.now }
    requires desk { IsSessionOf desk.now changes.now }
    ensures told { (d : Change) →
        result ≡ told_of desk.now changes.now (slice_index_or changes.now place d) }
    ensures document { IsOfDesk desk.now result }
{
    let change = &changes[place];
    Changed {
        topic: change.topic,
        doc: change.doc,
        grade: in_force(changes, desk, change.topic, change.doc),
    }
}

/// What is told of a document, by the grade of its last live change, if it has one.
pub fn told_by(desk: &Desk, topic: u32, doc: u32, grade: Option<i32>) -> Changed
    requires topic { topic < length desk.now.topics }
    requires doc { doc < length (book_at desk.now topic).docs }
    ensures told { result ≡
        record {
          topic = topic;
          doc = doc;
          grade = counted_grade
              (option_or grade (file_grade_of (book_at desk.now topic) doc));
        } }
    ensures document { IsOfDesk desk.now result }
{
    let file = desk.topic(topic).file_grade(doc);
    Changed {
        topic,
        doc,
        grade: counted(grade.or(file)),
    }
}

/// The grades in force of all documents of a topic, by one walk of the documents and one of the list.
pub fn all_in_force(
    alloc: Global,
    changes: &[Change],
    desk: &Desk,
    topic: u32,
) -> Result<Vec<Option<i32>>, Memory>
    requires topic { topic < length desk.now.topics }
    requires desk { IsSessionOf desk.now changes.now }
    ensures { IfOk result (λ grades. grades.items ≡ grades_in_force desk.now topic changes.now) }
{
    let file = desk.topic(topic).grades(alloc)?;
    let mut grades = all_counted(alloc, &file)?;
    replay(&mut grades, changes, topic);
    Ok(grades)
}

fn all_counted(alloc: Global, grades: &[Option<i32>]) -> Result<Vec<Option<i32>>, AllocError>
    ensures { IfOk result (λ all. all.items ≡ map counted_grade grades.now) }
{
    grades.iter().map(|grade| counted(*grade)).collect(alloc)
}

// Gives each document of a topic the grade of its last live change, as it counts.
fn replay(grades: &mut [Option<i32>], changes: &[Change], topic: u32)
    requires counted { (doc : ℕ) (e : Option ℤ) → doc < length grades.old →
        slice_index_or grades.old doc e ≡ counted_grade (slice_index_or grades.old doc e) }
    ensures { (doc : ℕ) (e : Option ℤ) → doc < length grades.old →
        slice_index_or grades.new doc e ≡
        counted_grade (grade_after (slice_index_or grades.old doc e) topic doc changes.now) }
{
    for change in changes {
        replay_one(grades, change, topic);
    }
}

fn replay_one(grades: &mut [Option<i32>], change: &Change, topic: u32)
    ensures { (doc : ℕ) (e : Option ℤ) → doc < length grades.old →
        slice_index_or grades.new doc e ≡
        (if is_live_on topic doc change.now then counted_grade (Some change.now.grade) else
        slice_index_or grades.old doc e) }
{
    let doc = change.doc as usize;
    if change.live && change.topic == topic && doc < grades.len() {
        grades[doc] = counted(Some(change.grade));
    }
}
