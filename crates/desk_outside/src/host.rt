// The real files and streams. They tell nothing of what they hold.
ghost use Rattle.std.specs.Prelude.{◌≡◌, ◌≤◌, ◌+◌, ◌-◌, ◌^◌, [], min, None, false, is_some};
ghost use Rattle.desk_outside.specs.Calls.{shelf_calls, source_reads};

use crate::log::{ShelfLog, SourceLog};
use crate::logging::{add_opening, add_read, add_reading};
use crate::{Failed, Shelf, Sink, Source};
use std::fs;
use std::io::{Read, Write};
use std::rt::Files;

// A failure, once it is counted.
fn counted(faults: &mut u64) -> Failed
    ensures count { faults.new ≡ min (faults.old + 1) (2 ^ 64 - 1) }
    ensures later { faults.old ≤ faults.new }
{
    *faults = faults.saturating_add(1);
    Failed
}

/// The files of the system. It tells nothing of them.
#[derive(Drop)]
pub struct HostShelf<'r, R: Files> {
    rt: &'r R,
    file: Option<R::File>,
    faults: u64,
    calls: ShelfLog,
}

impl<'r, R: Files> HostShelf<'r, R> {
    /// A shelf with no file open.
    pub fn new(rt: &'r R) -> HostShelf<'r, R>
        ensures { ⟦<HostShelf<'r, R> as Shelf>⟧.state result ≡
            record { files = None; rest = None; is_open = false; faults = 0; calls = [] } }
    {
        HostShelf {
            rt,
            file: None,
            faults: 0,
            calls: ShelfLog::Start,
        }
    }
}

impl<R: Files> Shelf for HostShelf<'_, R> {
    ghost state = { λ s. record {
      files = None;
      rest = None;
      is_open = is_some s.file;
      faults = s.faults;
      calls = shelf_calls s.calls;
    } };

    fn open(&mut self, name: &str) -> Result<(), Failed> {
        add_opening(&mut self.calls, name);
        match fs::open(self.rt, name) {
            Ok(file) => {
                self.file = Some(file);
                Ok(())
            }
            Err(_) => Err(counted(&mut self.faults)),
        }
    }

    fn read(&mut self, room: &mut [u8]) -> Result<usize, Failed> {
        let answer = match &mut self.file {
            Some(file) => match file.read(room) {
                Ok(count) => Ok(count),
                Err(_) => Err(counted(&mut self.faults)),
            },
            None => unreachable!(),
        };
        add_reading(&mut self.calls, &answer);
        answer
    }
}

/// A source over a reader. It tells nothing of its bytes.
#[derive(Drop)]
pub struct HostSource<I> {
    reader: I,
    faults: u64,
    reads: SourceLog,
}

impl<I: Read> HostSource<I> {
    /// A source that reads from the reader's place on.
    pub fn new(reader: I) -> HostSource<I>
        ensures { ⟦<HostSource<I> as Source>⟧.state result ≡
            record { rest = None; faults = 0; reads = [] } }
    {
        HostSource {
            reader,
            faults: 0,
            reads: SourceLog::Start,
        }
    }
}

impl<I: Read> Source for HostSource<I> {
    ghost state = { λ s. record { rest = None; faults = s.faults; reads = source_reads s.reads } };

    fn read(&mut self, room: &mut [u8]) -> Result<usize, Failed> {
        let answer = match self.reader.read(room) {
            Ok(count) => Ok(count),
            Err(_) => Err(counted(&mut self.faults)),
        };
        add_read(&mut self.reads, &answer);
        answer
    }
}

/// A sink over a writer. It tells nothing of its bytes, and a write of no bytes is an error.
#[derive(Drop)]
pub struct HostSink<W> {
    writer: W,
    faults: u64,
}

impl<W: Write> HostSink<W> {
    /// A sink that writes from the writer's place on.
    pub fn new(writer: W) -> HostSink<W>
        ensures { ⟦<HostSink<W> as Sink>⟧.state result ≡ record { received = None; faults = 0 } }
    {
        HostSink { writer, faults: 0 }
    }
}

impl<W: Write> Sink for HostSink<W> {
    ghost state = { λ s. record { received = None; faults = s.faults } };

    fn put(&mut self, piece: &[u8]) -> Result<usize, Failed> {
        match self.writer.write(piece) {
            Ok(count) if 0 < count => Ok(count),
            _ => Err(counted(&mut self.faults)),
        }
    }
}
