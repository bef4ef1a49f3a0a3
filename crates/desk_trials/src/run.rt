// The call of a command line.
ghost use Rattle.std.specs.Prelude.{◌≡◌, ◌<◌};

use crate::outside::{Answer, FailingCall, Outside};
use any_measure::Common;
use desk_outside::{MemShelf, MemSink, MemSource};
use desk_top::run_desk;
use measure_core::Steps;
use std::alloc::{AllocError, Global};
use std::marker::Brand;
use std::sync::ledger::{Blank, Ledger};

const ERROR_ROOM: usize = 2_000;

/// The numbers of calls that fail.
pub fn calls(alloc: Global, failing: FailingCall) -> Result<Vec<u64>, AllocError> {
    match failing {
        Some(call) => [call].to_vec(alloc),
        None => Ok(Vec::new(alloc)),
    }
}

fn words_of(alloc: Global, line: &str) -> Result<Vec<String>, AllocError> {
    let mut words = Vec::new(alloc);
    for word in line.split(' ') {
        words.push(String::from_str(alloc, word)?)?;
    }
    Ok(words)
}

// A shelf of these files, by name and bytes, of whose calls this one fails.
fn shelf_of(
    alloc: Global,
    files: &[(&str, &[u8])],
    failing: FailingCall,
) -> Result<MemShelf, AllocError> {
    let mut held = Vec::new(alloc);
    for (name, bytes) in files {
        held.push((String::from_str(alloc, name)?, bytes.to_vec(alloc)?))?;
    }
    Ok(MemShelf::new(held, calls(alloc, failing)?))
}

fn source_of(alloc: Global, lines: &[u8], outside: Outside) -> Result<MemSource, AllocError> {
    let failing = calls(alloc, outside.input)?;
    Ok(MemSource::new(lines.to_vec(alloc)?, outside.given.max(1), failing))
}

fn sink_of(
    alloc: Global,
    room: usize,
    taken: usize,
    failing: FailingCall,
) -> Result<MemSink, AllocError> {
    MemSink::new(alloc, room, taken.max(1), calls(alloc, failing)?).map_err(|_| AllocError)
}

fn status_of<L: Ledger>(
    alloc: Global,
    words: &[String],
    files: &mut MemShelf,
    input: &mut MemSource,
    out: &mut MemSink,
    err: &mut MemSink,
    blank: Blank,
) -> u8
    requires name { blank.name ≡ L.name }
    requires parts { blank.parts ≡ L.parts }
    requires some { 0 < blank.parts }
{
    let mut steps: Steps<L> = Steps::new(blank);
    run_desk(alloc, words, files, input, out, err, &Common, &mut steps)
}

/// What the call of a command line, words between single spaces, answers over a shelf, these lines of input and an
/// outside. Which call of the files fails is the shelf's own.
pub fn run_over(
    alloc: Global,
    line: &str,
    files: &mut MemShelf,
    lines: &[u8],
    outside: Outside,
) -> Result<Answer, AllocError> {
    let words = words_of(alloc, line)?;
    let mut input = source_of(alloc, lines, outside)?;
    let mut out = sink_of(alloc, outside.room, outside.taken, outside.out)?;
    let mut err = sink_of(alloc, ERROR_ROOM, 3, outside.err)?;
    let status = status_of::<Brand>(
        alloc,
        &words,
        files,
        &mut input,
        &mut out,
        &mut err,
        Blank::new(1),
    );
    Ok(Answer {
        status,
        out: out.received().to_vec(alloc)?,
        err: err.received().to_vec(alloc)?,
    })
}

/// The same over files, by name and bytes.
pub fn run_line(
    alloc: Global,
    line: &str,
    files: &[(&str, &[u8])],
    lines: &[u8],
    outside: Outside,
) -> Result<Answer, AllocError> {
    let mut shelf = shelf_of(alloc, files, outside.files)?;
    run_over(alloc, line, &mut shelf, lines, outside)
}
