ghost use Rattle.std.specs.Prelude.{◌≡◌, ◌<◌, ◌≤◌, map, string_bytes, None, Err, IfOk};
ghost use Rattle.std.specs.Process.{exit_status};
ghost use Rattle.desk_outside.specs.Seen.{sink};
ghost use Rattle.desk_top.specs.Status.{IsStatus, status_line};
ghost use Rattle.desk_top.specs.Told.{WritesLine};
ghost use Rattle.desk_top.specs.Meaning.{Means};
ghost use Rattle.desk_top.specs.Meets.{CanEnd};

use any_measure::Common;
use desk_outside::{HostShelf, HostSink, HostSource, Sink};
use desk_top::{Status, run_desk, tell_memory, tell_outside};
use measure_core::Steps;
use std::env;
use std::io::ErrorKind;
use std::marker::Brand;
use std::process::ExitCode;
use std::sync::ledger::{Blank, Ledger};

// Why there are no words.
#[derive(Clone, Copy)]
enum NoWords {
    // The system did not give them.
    Outside,
    // Memory for them ran out.
    Memory,
}

fn run<L: Ledger>(rt: &HostRuntime, words: &[String], blank: Blank) -> u8
    requires name { blank.name ≡ L.name }
    requires parts { blank.parts ≡ L.parts }
    requires some { 0 < blank.parts }
    ensures known { result ≤ 6 }
    ensures ends { IsStatus result (λ status.
        Means (map string_bytes words.now) (λ meaning. CanEnd meaning None status)) }
{
    let mut files = HostShelf::new(rt);
    let mut input = HostSource::new(rt.reader());
    let mut out = HostSink::new(rt.stdout());
    let mut err = HostSink::new(rt.stderr());
    let mut steps: Steps<L> = Steps::new(blank);
    run_desk(
        rt.alloc(),
        words,
        &mut files,
        &mut input,
        &mut out,
        &mut err,
        &Common,
        &mut steps,
    )
}

// The words after the program's name.
fn words(rt: &HostRuntime) -> Result<Vec<String>, NoWords> {
    match env::args(rt) {
        Ok(all) => all
            .skip(1)
            .collect::<Vec<String>>(rt.alloc())
            .map_err(|_| NoWords::Memory),
        Err(error) if error.kind() == ErrorKind::OutOfMemory => Err(NoWords::Memory),
        Err(_) => Err(NoWords::Outside),
    }
}

// Ends a call for which there are no words: the line of its status, and that.
fn end_without_words<K: Sink>(err: &mut K, fault: NoWords) -> Status
    ensures outside { fault ≡ NoWords.Outside → result ≡ Status.Outside }
    ensures memory { fault ≡ NoWords.Memory → result ≡ Status.Memory }
    ensures line { WritesLine (sink (K.state err.old) (K.state err.new)) (status_line result) }
{
    match fault {
        NoWords::Outside => tell_outside(err),
        NoWords::Memory => tell_memory(err),
    }
}

// Runs the command of the words, if there are any, and answers its status.
fn status(rt: &HostRuntime, words: Result<Vec<String>, NoWords>) -> u8
    ensures known { result ≤ 6 }
    ensures outside { words ≡ Err NoWords.Outside → result ≡ 3 }
    ensures memory { words ≡ Err NoWords.Memory → result ≡ 4 }
    ensures ends { IfOk words (λ words.
        IsStatus result (λ status.
        Means (map string_bytes words.items) (λ meaning. CanEnd meaning None status))) }
{
    match words {
        Ok(words) => run::<Brand>(rt, &words, Blank::new(1)),
        Err(fault) => end_without_words(&mut HostSink::new(rt.stderr()), fault).into(),
    }
}

// The exit code of a status.
fn exit_code(status: u8) -> ExitCode
    ensures { exit_status result ≡ status }
{
    ExitCode::from(status)
}

/// Runs the command of the words after the program's name over the real files and streams, and answers
/// its status, from 0 to 6, as an exit code. Where the system does not give the words it is 3, and where
/// memory for them ran out 4.
pub fn call(rt: &HostRuntime) -> ExitCode
    ensures { exit_status result ≤ 6 }
{
    exit_code(status(rt, words(rt)))
}
