// Three files that are cut anywhere make one desk. Its numbers were worked out by hand.
ghost use Rattle.std.specs.Prelude.{◌≡◌, ◌<◌, length};

use crate::desks::desk_of;
use desk_model::{Desk, TopicBook};
use std::alloc::{AllocError, Global};
use std::test::Fail;

const QRELS: &[u8] =
    b"401\t0\tFBIS3-1\t1\r\n401\t0\tFBIS3-2\t0\r\n402 0 FT911-3\t2\r\n402 0 FT911-5 -1\r\n";

const FIRST: &[u8] =
    b"401 Q0 FBIS3-1 0 12.345600 BM25\n401 Q0 FBIS3-9 1 11.2 BM25\n402 Q0 FT911-3 0 9.870000 BM25\n403 Q0 LA1-1 0 3.1 BM25\n";

const SECOND: &[u8] =
    b"401 Q0 FBIS3-2 1 0.91 dense\n401 Q0 FBIS3-9 2 1.2e-05 dense\n402 Q0 FT911-5 1 0.5 dense\n402 Q0 FT911-3 2 0.25 dense\n";

/// What a topic is to be.
struct Topic {
    name: &'static [u8],
    /// Its documents by number, and their grades.
    docs: &'static [(&'static [u8], Option<i32>)],
    /// The rankings of both runs.
    rankings: [&'static [u32]; 2],
}

const TOPICS: [Topic; 2] = [
    Topic {
        name: b"401",
        docs: &[
            (b"FBIS3-1", Some(1)),
            (b"FBIS3-2", Some(0)),
            (b"FBIS3-9", None),
        ],
        rankings: [&[0, 2], &[1, 2]],
    },
    Topic {
        name: b"402",
        docs: &[(b"FT911-3", Some(2)), (b"FT911-5", Some(-1))],
        rankings: [&[0], &[1, 0]],
    },
];

// Whether a topic has these documents with these grades, and no other.
fn has_documents(book: &TopicBook, docs: &[(&[u8], Option<i32>)]) -> bool {
    if book.doc_count() as usize != docs.len() {
        return false;
    }
    for doc in 0..book.doc_count() {
        let (name, grade) = docs[doc as usize];
        if book.doc_name(doc) != name || book.file_grade(doc) != grade {
            return false;
        }
    }
    true
}

fn has_topic(desk: &Desk, t: u32, topic: &Topic) -> bool
    requires topic { t < length desk.now.topics }
    requires runs { length desk.now.runs ≡ 2 }
{
    let book = desk.topic(t);
    book.name() == topic.name
        && has_documents(book, topic.docs)
        && desk.ranking(0, t).docs() == topic.rankings[0]
        && desk.ranking(1, t).docs() == topic.rankings[1]
}

// Whether a desk is the one that was worked out.
fn is_expected(desk: &Desk) -> bool
    requires { length desk.now.runs ≡ 2 }
{
    desk.run_name(0) == b"BM25".as_slice()
        && desk.run_name(1) == b"dense".as_slice()
        && desk.topic_count() == 2
        && has_topic(desk, 0, &TOPICS[0])
        && has_topic(desk, 1, &TOPICS[1])
}

// The two pieces of a file that is cut there, or at its end.
fn cut(file: &[u8], at: usize) -> [&[u8]; 2] {
    let (before, after) = file.split_at(at.min(file.len()));
    [before, after]
}

fn single_bytes(alloc: Global, file: &[u8]) -> Result<Vec<&[u8]>, AllocError> {
    let mut pieces = Vec::new(alloc);
    for piece in file.chunks(1) {
        pieces.push(piece)?;
    }
    Ok(pieces)
}

// Whether the files, each in these pieces, make the desk.
fn make_the_desk(
    alloc: Global,
    qrels: &[&[u8]],
    first: &[&[u8]],
    second: &[&[u8]],
) -> Result<bool, Fail> {
    let desk = desk_of(alloc, qrels, first, second)?;
    Ok(is_expected(&desk))
}

#[test]
fn two_pieces_make_the_desk(rt: HostRuntime) -> Result<(), Fail> {
    for at in 0..=FIRST.len().max(SECOND.len()) {
        let (qrels, first, second) = (cut(QRELS, at), cut(FIRST, at), cut(SECOND, at));
        let made = make_the_desk(rt.alloc(), &qrels, &first, &second)?;
        assert!(rt; made, "cut at {at}");
    }
    Ok(())
}

#[test]
fn single_bytes_make_the_desk(rt: HostRuntime) -> Result<(), Fail> {
    let alloc = rt.alloc();
    let qrels = single_bytes(alloc, QRELS)?;
    let first = single_bytes(alloc, FIRST)?;
    let second = single_bytes(alloc, SECOND)?;
    assert!(rt; make_the_desk(alloc, &qrels, &first, &second)?);
    Ok(())
}
