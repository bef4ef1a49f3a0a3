// The desk of three runs on one topic: A has the relevant d1, B has d2, which is not relevant, C has z1 and z2, which are unjudged.
ghost use Rattle.std.specs.Prelude.{IfOk};
ghost use Rattle.desk_model.specs.Desk.{AreMarksOf};

use desk_files::load_desk;
use desk_model::{Desk, Marks};
use desk_outside::MemShelf;
use desk_words::{Command, read_words};
use std::alloc::{AllocError, Global};
use std::test::Fail;

const FILES: [(&str, &[u8]); 4] = [
    ("q", b"401 0 d1 1\n401 0 d2 0\n"),
    ("a", b"401 Q0 d1 1 9 A\n"),
    ("b", b"401 Q0 d2 1 9 B\n"),
    ("c", b"401 Q0 z1 1 2 C\n401 Q0 z2 2 1 C\n"),
];

fn shelf(alloc: Global) -> Result<MemShelf, AllocError> {
    let mut files = Vec::new(alloc);
    for (name, bytes) in &FILES {
        files.push((String::from_str(alloc, name)?, bytes.to_vec(alloc)?))?;
    }
    Ok(MemShelf::new(files, Vec::new(alloc)))
}

fn words_of(alloc: Global, line: &str) -> Result<Vec<String>, AllocError> {
    let mut words = Vec::new(alloc);
    for word in line.split(' ') {
        words.push(String::from_str(alloc, word)?)?;
    }
    Ok(words)
}

/// The desk that a table of this line is of.
pub fn desk_of(alloc: Global, line: &str) -> Result<Desk, Fail> {
    let words = words_of(alloc, line)?;
    let Ok(Command::Table(job)) = read_words(alloc, words.as_slice()) else {
        return Err("no table".into());
    };
    let mut files = shelf(alloc)?;
    match load_desk(alloc, &mut files, &job.qrels, &job.runs, 1) {
        Ok(desk) => Ok(desk),
        Err(_) => Err("no desk".into()),
    }
}

/// Its marks at level 1.
pub fn marks_of(alloc: Global, desk: &Desk) -> Result<Marks, Fail>
    ensures { IfOk result (λ marks. AreMarksOf desk.now marks.rows) }
{
    let _ = desk.topic_count();
    let marks = Marks::of_file(alloc, desk, 1, None)?;
    Ok(marks)
}
