// A session over files in memory.
ghost use Rattle.std.specs.Prelude.{◌≡◌, ◌<◌};

use crate::counting::{Calls, Counting};
use desk_outside::{MemShelf, MemSink, MemSource};
use desk_top::run_desk;
use measure_core::{Maker, Steps};
use std::alloc::{AllocError, Global};
use std::marker::Brand;
use std::process::Abort;
use std::sync::ledger::{Blank, Ledger};

fn status_of<P: Maker, L: Ledger>(
    alloc: Global,
    words: &[String],
    files: &mut MemShelf,
    input: &mut MemSource,
    outputs: (&mut MemSink, &mut MemSink),
    maker: &P,
    blank: Blank,
) -> u8
    requires name { blank.name ≡ L.name }
    requires parts { blank.parts ≡ L.parts }
    requires some { 0 < blank.parts }
{
    let (out, err) = outputs;
    let mut steps: Steps<L> = Steps::new(blank);
    run_desk(alloc, words, files, input, out, err, maker, &mut steps)
}

fn sink(alloc: Global, room: usize) -> Result<MemSink, AllocError> {
    MemSink::new(alloc, room, 4096, Vec::new(alloc)).map_err(|_| AllocError)
}

fn words_of(alloc: Global, line: &str) -> Result<Vec<String>, AllocError> {
    let mut words = Vec::new(alloc);
    for word in line.split(' ') {
        words.push(String::from_str(alloc, word)?)?;
    }
    Ok(words)
}

fn shelf_of(alloc: Global, files: &[(&str, &[u8])]) -> Result<MemShelf, AllocError> {
    let mut held = Vec::new(alloc);
    for (name, text) in files {
        held.push((String::from_str(alloc, name)?, text.to_vec(alloc)?))?;
    }
    Ok(MemShelf::new(held, Vec::new(alloc)))
}

fn received<P: Maker>(
    alloc: Global,
    words: &[String],
    files: &mut MemShelf,
    lines: &[u8],
    maker: &P,
) -> Result<Vec<u8>, AllocError> {
    let mut input = MemSource::new(lines.to_vec(alloc)?, 4096, Vec::new(alloc));
    let mut out = sink(alloc, 400_000)?;
    let mut err = sink(alloc, 1_000)?;
    let outputs = (&mut out, &mut err);
    let blank = Blank::new(1);
    let _status = status_of::<P, Brand>(alloc, words, files, &mut input, outputs, maker, blank);
    out.received().to_vec(alloc)
}

/// What the session of these words, over these files by name, replies to its input: up to 400,000 bytes.
pub fn replies<P: Maker>(
    alloc: Global,
    line: &str,
    files: &[(&str, &[u8])],
    lines: &[u8],
    maker: &P,
) -> Result<Vec<u8>, AllocError> {
    let words = words_of(alloc, line)?;
    let mut shelf = shelf_of(alloc, files)?;
    received(alloc, &words, &mut shelf, lines, maker)
}

/// How often a session that replies as expected asks its measure for a cell and for a weight.
pub fn counts(
    rt: &impl Abort,
    alloc: Global,
    line: &str,
    files: &[(&str, &[u8])],
    lines: &[u8],
    expected: &[u8],
) -> Result<(u64, u64), AllocError> {
    let calls = Calls::none();
    let said = replies(alloc, line, files, lines, &Counting { calls: &calls })?;
    assert!(rt; said.as_slice() == expected);
    Ok((calls.cell.get(), calls.weight.get()))
}
