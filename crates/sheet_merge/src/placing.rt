// The rows of a sheet beside a desk.
ghost use Rattle.std.specs.Prelude.{◌≡◌, true, All, MatchOption, IfOk, OnOk, IfErr};
ghost use Rattle.sheet_merge.specs.Sheet.{IsMap};
ghost use Rattle.sheet_merge.specs.Placed.{is_placed, LacksPlace, IsFirstLack, counted, grade_under, grades_under};

use crate::find::find;
use crate::row::RowRef;
use crate::rows::SheetRows;
use crate::sheet::NotPlaced;
use desk_model::{Desk, TopicBook};
use std::alloc::{AllocError, Global};

/// What the place of a row lacks in a desk, where it lacks something.
pub fn lack<'r>(desk: &Desk, row: &RowRef<'r>) -> Option<NotPlaced<'r>>
    ensures { MatchOption result (is_placed desk.now row.now.0 ≡ true) (λ lack.
        LacksPlace desk.now row.now.0 lack) }
{
    let topic = row.topic();
    let doc = row.document();
    let Some(t) = desk.find_topic(topic) else {
        return Some(NotPlaced::UnknownTopic { topic });
    };
    match desk.topic(t).find(doc) {
        Some(_) => None,
        None => Some(NotPlaced::UnknownDocument { topic, doc }),
    }
}

/// Whether each row has a place in a desk; else what the first lacks that has none.
pub fn check_placed<'r>(desk: &Desk, rows: &'r SheetRows) -> Result<(), NotPlaced<'r>>
    ensures all { OnOk result (All (λ row. is_placed desk.now row.0 ≡ true) rows.now) }
    ensures first { IfErr result (IsFirstLack desk.now rows.now) }
{
    for i in 0..rows.len() {
        match lack(desk, &rows.get(i)) {
            Some(lack) => return Err(lack),
            None => {}
        }
    }
    Ok(())
}

// A grade below 0 counts as none.
fn counted(grade: Option<i32>) -> Option<i32>
    ensures { result ≡ counted grade }
{
    match grade {
        Some(grade) if grade >= 0 => Some(grade),
        _ => None,
    }
}

// The grade in force of a document, by the file's grade.
fn grade_over(rows: &SheetRows, topic: &[u8], doc: &[u8], file: Option<i32>) -> Option<i32>
    requires { IsMap rows.now }
    ensures { result ≡ grade_under rows.now (topic.now, doc.now) file }
{
    match find(rows, topic, doc) {
        Some(row) => counted(Some(row.grade() as i32)),
        None => counted(file),
    }
}

/// The grades in force of the documents of a topic. It fails only where memory runs out.
pub fn grades_over(
    alloc: Global,
    rows: &SheetRows,
    book: &TopicBook,
) -> Result<Vec<Option<i32>>, AllocError>
    requires { IsMap rows.now }
    ensures { IfOk result (λ grades. grades.items ≡ grades_under book.now rows.now) }
{
    let count = book.doc_count();
    let mut grades = Vec::with_capacity(alloc, count as usize)?;
    for doc in 0..count {
        grades.push(grade_over(rows, book.name(), book.doc_name(doc), book.file_grade(doc)))?;
    }
    Ok(grades)
}
