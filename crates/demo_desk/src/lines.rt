// Texts that are fed to the readers line by line.
ghost use Rattle.std.specs.Prelude.{◌≡◌, ◌≤◌, ◌<◌, ◌+◌, ◌⊎◌, ℕ, length, None, Some};
ghost use Rattle.memchr.specs.Find.{IsFirstByte, is_byte};
ghost use Rattle.file_rows.specs.Reading.{IsUnlessMemory};
ghost use Rattle.qrels_reader.specs.Grouped.{qrels_of};
ghost use Rattle.run_reader.specs.Run.{run_of, IsWithinLimits};

use file_rows::FileFault;
use memchr::memchr;
use qrels_reader::{Qrels, QrelsReader};
use run_reader::{RunReader, RunRows, Used};
use std::alloc::Global;

const LINE_FEED: u8 = b'\n';

// How many bytes the first line of a text has, with its line feed.
fn line_length(text: &[u8]) -> usize
    requires { 0 < length text.now }
    ensures some { 0 < result }
    ensures within { result ≤ length text.now }
    ensures line { (IsFirstByte (is_byte 10) text.now None × (result ≡ length text.now)) ⊎
        ((at : ℕ) × IsFirstByte (is_byte 10) text.now (Some at) × (result ≡ at + 1)) }
{
    match memchr(LINE_FEED, text) {
        Some(at) => at + 1,
        None => text.len(),
    }
}

/// The judgements of a text, as `read_qrels` reads them.
pub fn read_judgement_lines(alloc: Global, text: &[u8]) -> Result<Qrels, FileFault>
    ensures { IsUnlessMemory result (qrels_of text.now) }
{
    let mut reader = QrelsReader::new(alloc)?;
    let mut rest = text;
    'lines: while !rest.is_empty() {
        let (line, later) = rest.split_at(line_length(rest));
        reader.feed(line)?;
        rest = later;
    }
    reader.finish()
}

/// The run of a text that names it, as `read_run` reads it.
pub fn read_run_lines(
    alloc: Global,
    text: &[u8],
    qrels: &Qrels,
    used: Used,
) -> Result<RunRows, FileFault>
    requires { IsWithinLimits used }
    ensures { IsUnlessMemory result (run_of None qrels.now used text.now) }
{
    let mut reader = RunReader::new(alloc, None, used, qrels)?;
    let mut rest = text;
    'lines: while !rest.is_empty() {
        let (line, later) = rest.split_at(line_length(rest));
        reader.feed(line)?;
        rest = later;
    }
    reader.finish()
}
