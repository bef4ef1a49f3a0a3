// What is meant by the rows of a run, by examples.
ghost use Rattle.run_reader.specs.Run.{IsWithinLimits};

use qrels_reader::{FileFault, LineFault, Qrels, read_qrels};
use run_reader::{RunRows, Used, read_run};
use std::alloc::Global;

const NONE: Used = Used {
    rows: 0,
    name_bytes: 0,
};

fn qrels(alloc: Global) -> Result<Qrels, FileFault> {
    read_qrels(alloc, b"401 0 d1 1\n402 0 d1 1\n")
}

// A run beside the judgements, after other runs.
fn read_after(alloc: Global, text: &[u8], used: Used) -> Result<RunRows, FileFault>
    requires { IsWithinLimits used }
{
    read_run(alloc, text, None, &qrels(alloc)?, used)
}

fn read(alloc: Global, text: &[u8]) -> Result<RunRows, FileFault> {
    read_after(alloc, text, NONE)
}

fn at_line(line: u64, fault: LineFault) -> Option<FileFault> {
    Some(FileFault::Line { line, fault })
}

// Whether the run has three rows on two topics, the second of which has the lower score.
fn has_rows(run: &RunRows) -> bool {
    let Used { rows, name_bytes } = run.used();
    rows == 3
        && name_bytes == 6
        && run.topic_rows(b"401") == 2
        && run.topic_rows(b"402") == 1
        && run.topic_rows(b"403") == 0
        && run.doc(b"401", 1) == b"d9".as_slice()
        && run.score(b"401", 1) < run.score(b"401", 0)
}

#[test]
fn keeps_rows_of_the_topics(rt: HostRuntime) {
    let text =
        b"403 Q0 x 1 2 BM25\n\n 401\tQ0 d1 7 12.345600 other\r\n401 Q0 d9 1 1.2e1 BM25\n402 Q0 d1 0 3 BM25";
    let run = read(rt.alloc(), text);
    assert!(rt; run.is_ok_and(|run| run.name() == b"BM25".as_slice() && has_rows(&run)));
}

// An empty run with a given name.
fn named(alloc: Global) -> Result<RunRows, FileFault> {
    read_run(alloc, b"", Some(b"E"), &qrels(alloc)?, NONE)
}

#[test]
fn takes_the_given_name(rt: HostRuntime) {
    let run = named(rt.alloc());
    assert!(rt; run.is_ok_and(|run| run.name() == b"E".as_slice()));
    let unnamed = read(rt.alloc(), b"\n \n").err();
    assert!(rt; unnamed == Some(FileFault::NoTag));
}

#[test]
fn tells_the_first_fault(rt: HostRuntime) {
    let cases: [(&[u8], Option<FileFault>); 5] = [
        (
            b"401 Q0 d1 1 9 A\n\n401 Q0 d1 2 8 A",
            at_line(3, LineFault::RepeatedDocument),
        ),
        (b"401 Q0 d1 1 9", at_line(1, LineFault::BadFieldCount)),
        (b"403 Q0 d1 1 inf A", at_line(1, LineFault::BadScore)),
        (
            b"401 Q0 d1 1 1e1000 A",
            at_line(1, LineFault::ScoreExponent),
        ),
        (b"401 Q0 d\x01 1 x", at_line(1, LineFault::BadByte)),
    ];
    for (text, fault) in &cases {
        assert!(rt; read(rt.alloc(), text).err() == *fault);
    }
}

#[test]
fn what_came_before_counts(rt: HostRuntime) {
    let cases: [(&[u8], u32, u32, Option<FileFault>); 3] = [
        (
            b"401 Q0 d 1 9 A\n",
            20_000_000,
            0,
            at_line(1, LineFault::TooManyRows),
        ),
        (
            b"401 Q0 dd 1 9 A\n",
            0,
            268_435_455,
            at_line(1, LineFault::TooManyNameBytes),
        ),
        (b"401 Q0 d 1 9 A\n", 19_999_999, 268_435_455, None),
    ];
    for (text, rows, name_bytes, fault) in &cases {
        let used = Used {
            rows: *rows,
            name_bytes: *name_bytes,
        };
        assert!(rt; read_after(rt.alloc(), text, used).err() == *fault);
    }
}
