// A source in memory.
ghost use Rattle.std.specs.Prelude.{◌≡◌, ◌<◌, ◌≤◌, ◌↔◌, ◌++◌, ◌∷◌, [], IsTrue, IsErr, IfOk, OnErr, Some, min, take, length};
ghost use Rattle.std.specs.Io.{ReadsAtMost};
ghost use Rattle.desk_outside.specs.Outside.{HasCause};
ghost use Rattle.desk_outside.specs.Calls.{read_of};
ghost use Rattle.desk_outside.specs.InMemory.{no_calls, is_listed, after_call};

use crate::calls::Calls;
use crate::give::give;
use crate::log::SourceLog;
use crate::logging::add_read;
use crate::{Failed, Source};
use std::marker::Model;

/// A source of given bytes, some of whose calls fail.
#[derive(Drop)]
pub struct MemSource {
    bytes: Vec<u8>,
    at: usize,
    piece: usize,
    calls: Calls,
    reads: SourceLog,
}

impl Model for MemSource {
    ghost use Rattle.std.specs.Prelude.{◌<◌, ◌≤◌, drop, length};
    ghost use Rattle.desk_outside.specs.Calls.{source_reads};
    ghost use Rattle.desk_outside.specs.InMemory.{MemorySource};

    ghost Value = { MemorySource };

    ghost view = { λ s. record { rest = drop s.at s.bytes.items; piece = s.piece; calls = s.calls; reads = source_reads s.reads } };

    ghost invariant = { λ s. (0 < s.piece) × (s.at ≤ length s.bytes.items) };
}

impl MemSource {
    /// A source that gives at most `piece` bytes per call. Its calls are numbered from 0, and those in `failing` fail.
    pub fn new(bytes: Vec<u8>, piece: usize, failing: Vec<u64>) -> MemSource
        requires { 0 < piece }
        ensures rest { result.rest ≡ bytes.items }
        ensures piece { result.piece ≡ piece }
        ensures calls { result.calls ≡ no_calls failing.items }
        ensures reads { result.reads ≡ [] }
    {
        MemSource {
            bytes,
            at: 0,
            piece,
            calls: Calls::new(failing),
            reads: SourceLog::Start,
        }
    }
}

impl Source for MemSource {
    ghost state = { λ s. record { rest = Some s.rest; faults = s.calls.faults; reads = s.reads } };

    /// Fails exactly at a listed call, and else gives as much as the room, `piece` and what is left allow.
    fn read(&mut self, room: &mut [u8]) -> Result<usize, Failed>
        requires { 0 < length room.old }
        ensures bound { ReadsAtMost result room.new }
        ensures bytes { IfOk result (λ n. self.old.rest ≡ take n room.new ++ self.new.rest) }
        ensures end { IfOk result (λ n. n ≡ 0 → self.new.rest ≡ []) }
        ensures err { OnErr result (self.new.rest ≡ self.old.rest) }
        ensures cause { HasCause self.old.calls.faults self.new.calls.faults result }
        ensures fails { IsErr result ↔ IsTrue (is_listed self.old.calls) }
        ensures count { IfOk result (λ n. n ≡
            min (min (length self.old.rest) self.old.piece) (length room.old)) }
        ensures piece { self.new.piece ≡ self.old.piece }
        ensures reads { self.new.reads ≡ self.old.reads ++ read_of result ∷ [] }
        ensures calls { self.new.calls ≡ after_call self.old.calls (is_listed self.old.calls) }
    {
        let fails = self.calls.is_listed();
        self.calls.make(fails);
        let answer = if fails {
            Err(Failed)
        } else {
            let count = give(&self.bytes[self.at..], self.piece, room);
            self.at += count;
            Ok(count)
        };
        add_read(&mut self.reads, &answer);
        answer
    }
}
