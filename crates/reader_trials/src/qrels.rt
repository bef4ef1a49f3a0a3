// Qrels files and their faults, by examples.
ghost use Rattle.std.specs.Prelude.{◌≡◌, true, length};

use qrels_reader::{FileFault, LineFault, Qrels, read_qrels};
use std::alloc::{AllocError, Global};

fn refusal(rt: &HostRuntime, bytes: &[u8]) -> Option<FileFault> {
    read_qrels(rt.alloc(), bytes).err()
}

fn at_line(line: u64, fault: LineFault) -> Option<FileFault> {
    Some(FileFault::Line { line, fault })
}

// Whether there are two topics with three rows, the second of them `401`.
fn has_topics(qrels: &Qrels) -> bool
    ensures { result ≡ true → length qrels.now ≡ 2 }
{
    qrels.topics() == 2
        && qrels.rows() == 3
        && qrels.name_bytes() == 11
        && qrels.topic_name(1) == b"401".as_slice()
        && qrels.has_topic(b"402")
        && !qrels.has_topic(b"40")
}

// Whether the first topic has two documents, `d2` the second, and the next topic one, with these grades.
fn has_documents(qrels: &Qrels) -> bool
    requires { length qrels.now ≡ 2 }
{
    qrels.doc_count(0) == 2
        && qrels.doc_count(1) == 1
        && qrels.doc_name(0, 1) == b"d2".as_slice()
        && qrels.grade(0, 0) == 2
        && qrels.grade(0, 1) == 1
        && qrels.grade(1, 0) == -1
}

#[test]
fn reads_rows(rt: HostRuntime) {
    let text = b"402\t0 d1 2\r\n\n401 x FT911-3 -1\n402 0 d2 +0001";
    let Ok(qrels) = read_qrels(rt.alloc(), text) else {
        panic!(rt; "each line has a row");
    };
    assert!(rt; has_topics(&qrels) && has_documents(&qrels));
}

#[test]
fn tells_faults(rt: HostRuntime) {
    let cases: [(&[u8], Option<FileFault>); 5] = [
        (b" \n\n", Some(FileFault::NoTopics)),
        (b"401 0 d1 1\n\n401 0 d\0 1", at_line(3, LineFault::BadByte)),
        (b"401 0 d1\n", at_line(1, LineFault::BadFieldCount)),
        (b"401 0 d1 1001\n", at_line(1, LineFault::BadGrade)),
        (
            b"1 0 d 1\n2 0 d 1\n1 0 d 0\n",
            at_line(3, LineFault::RepeatedDocument),
        ),
    ];
    for (text, fault) in &cases {
        assert!(rt; refusal(&rt, text) == *fault);
    }
}

fn padded(alloc: Global, name: usize, spaces: usize) -> Result<Vec<u8>, AllocError> {
    let mut text = vec![in alloc; b'd'; name]?;
    text.extend_from_slice(b" 0 d 1")?;
    let spaces = vec![in alloc; b' '; spaces]?;
    text.extend_from_slice(&spaces)?;
    Ok(text)
}

#[test]
fn keeps_lengths(rt: HostRuntime) -> Result<(), AllocError> {
    for (name, spaces, fault) in &[
        (255, 0, None),
        (256, 0, at_line(1, LineFault::NameTooLong)),
        (3, 4087, None),
        (3, 4088, at_line(1, LineFault::LineTooLong)),
    ] {
        let text = padded(rt.alloc(), *name, *spaces)?;
        assert!(rt; refusal(&rt, &text) == *fault);
    }
    Ok(())
}

// Names of 32 bytes that start so have one hash, whatever the other eight bytes are.
const ONE_HASH: &[u8] = b"collides&!!!!!!!1\xf9\x8a\xd1;9\x8d\xfe";

fn add_row(text: &mut Vec<u8>, last: u8) -> Result<(), AllocError> {
    text.extend_from_slice(b"1 0 ")?;
    text.extend_from_slice(ONE_HASH)?;
    text.extend_from_slice(b"number-")?;
    text.push(last)?;
    text.extend_from_slice(b" 1\n")
}

#[test]
fn tells_names_of_one_hash_apart(rt: HostRuntime) -> Result<(), AllocError> {
    let mut text = Vec::new(rt.alloc());
    for last in b'A'..=b'z' {
        add_row(&mut text, last)?;
    }
    assert!(rt; refusal(&rt, &text) == None);
    add_row(&mut text, b'x')?;
    assert!(rt; refusal(&rt, &text) == at_line(59, LineFault::RepeatedDocument));
    Ok(())
}

#[test]
fn survives_any_bytes(rt: HostRuntime) {
    let alphabet = b"0 1\n\t-+d\0\x7f";
    let mut state: u32 = 1;
    for _ in 0..500 {
        let mut text = [0; 40];
        for byte in text.iter_mut() {
            state = state.wrapping_mul(1_664_525).wrapping_add(1_013_904_223);
            *byte = alphabet[(state >> 16) as usize % 10];
        }
        assert!(rt; refusal(&rt, &text) != Some(FileFault::Memory));
    }
}
