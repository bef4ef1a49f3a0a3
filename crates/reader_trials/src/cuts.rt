// Files that are cut anywhere, by examples.
use qrels_reader::{FileFault, LineFault, Qrels, QrelsReader};
use run_reader::{RunReader, RunRows, Used};
use std::alloc::Global;
use std::test::Fail;

const QRELS: &[u8] =
    b"401\t0\tFBIS3-1\t1\r\n401\t0\tFBIS3-2\t0\r\n402 0 FT911-3\t2\r\n402 0 FT911-5 -1\r\n";

const RUN: &[u8] =
    b"401 Q0 FBIS3-1 0 12.345600 BM25\n401 Q0 FBIS3-9 1 11.2 BM25\n402 Q0 FT911-3 0 9.870000 BM25\n403 Q0 LA1-1 0 3.1 BM25\n";

const NONE: Used = Used {
    rows: 0,
    name_bytes: 0,
};

// More than either file has.
const ALL: usize = 1_000;

fn feed_qrels(reader: &mut QrelsReader, cut: usize, piece: usize) -> Result<(), FileFault> {
    let (before, after) = QRELS.split_at(cut.min(QRELS.len()));
    reader.feed(before)?;
    for part in after.chunks(piece.max(1)) {
        reader.feed(part)?;
    }
    Ok(())
}

// Qrels whose bytes after a cut are fed in pieces of one length.
fn cut_qrels(alloc: Global, cut: usize, piece: usize) -> Result<Qrels, FileFault> {
    let mut reader = QrelsReader::new(alloc)?;
    feed_qrels(&mut reader, cut, piece)?;
    reader.finish()
}

fn feed_run(
    reader: &mut RunReader<'_>,
    run: &[u8],
    cut: usize,
    piece: usize,
) -> Result<(), FileFault> {
    let (before, after) = run.split_at(cut.min(run.len()));
    reader.feed(before)?;
    for part in after.chunks(piece.max(1)) {
        reader.feed(part)?;
    }
    Ok(())
}

// The same with a run.
fn cut_run(
    alloc: Global,
    run: &[u8],
    cut: usize,
    piece: usize,
    qrels: &Qrels,
) -> Result<RunRows, FileFault> {
    let mut reader = RunReader::new(alloc, None, NONE, qrels)?;
    feed_run(&mut reader, run, cut, piece)?;
    reader.finish()
}

fn at_line(line: u64, fault: LineFault) -> FileFault {
    FileFault::Line { line, fault }
}

fn is_whole(qrels: &Qrels) -> bool {
    qrels.topics() == 2 && qrels.rows() == 4 && qrels.name_bytes() == 28
}

fn is_whole_run(run: &RunRows) -> bool {
    let Used { rows, name_bytes } = run.used();
    rows == 3
        && name_bytes == 21
        && run.name() == b"BM25".as_slice()
        && run.topic_rows(b"401") == 2
        && run.topic_rows(b"402") == 1
}

// Whether both files have their rows where they are cut there.
fn are_whole(alloc: Global, cut: usize, piece: usize) -> Result<bool, FileFault> {
    let qrels = cut_qrels(alloc, cut, piece)?;
    let run = cut_run(alloc, RUN, cut, piece, &qrels)?;
    Ok(is_whole(&qrels) && is_whole_run(&run))
}

#[test]
fn a_cut_changes_no_row(rt: HostRuntime) {
    for cut in 0..=RUN.len() {
        for piece in &[1, ALL] {
            let whole = are_whole(rt.alloc(), cut, *piece);
            assert!(rt; whole == Ok(true), "cut at {cut}");
        }
    }
}

// Whether a run has this fault wherever it is cut.
fn is_refused(alloc: Global, qrels: &Qrels, run: &[u8], fault: FileFault) -> bool {
    let fault = Some(fault);
    for cut in 0..=run.len() {
        for piece in &[1, ALL] {
            if cut_run(alloc, run, cut, *piece, qrels).err() != fault {
                return false;
            }
        }
    }
    true
}

#[test]
fn a_cut_changes_no_fault(rt: HostRuntime) -> Result<(), Fail> {
    let alloc = rt.alloc();
    let qrels = cut_qrels(alloc, 0, ALL)?;
    let run = b"401 Q0 d1 1 9";
    assert!(rt; is_refused(alloc, &qrels, run, at_line(1, LineFault::BadFieldCount)));
    let run = b"401 Q0 d1 1 9 A\n\n401 Q0 d1 1 9 A\n401 Q0 d2";
    assert!(rt; is_refused(alloc, &qrels, run, at_line(3, LineFault::RepeatedDocument)));
    Ok(())
}
