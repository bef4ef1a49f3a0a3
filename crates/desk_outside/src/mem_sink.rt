// A sink in memory.
ghost use Rattle.std.specs.Prelude.{◌≡◌, ◌<◌, ◌≤◌, ◌-◌, ◌↔◌, ◌++◌, [], true, false, IsErr, IfOk, OnOk, OnErr, Some, min, take, length};
ghost use Rattle.desk_outside.specs.Outside.{HasCause};
ghost use Rattle.desk_outside.specs.InMemory.{no_calls, after_call, FailsNext};

use crate::calls::Calls;
use crate::{Failed, Memory, Sink};
use std::alloc::Global;
use std::marker::Model;

/// A sink that keeps what it receives, some of whose calls fail.
#[derive(Drop)]
pub struct MemSink {
    received: Vec<u8>,
    room: usize,
    piece: usize,
    calls: Calls,
}

impl Model for MemSink {
    ghost use Rattle.std.specs.Prelude.{◌<◌, ◌≤◌, vec_len, vec_capacity};
    ghost use Rattle.desk_outside.specs.InMemory.{MemorySink};

    ghost Value = { MemorySink };

    ghost view = { λ s. record { received = s.received.items; room = s.room; piece = s.piece; calls = s.calls } };

    ghost invariant = { λ s. (0 < s.piece) × (vec_len s.received ≤ s.room) × (s.room ≤ vec_capacity s.received) };
}

impl MemSink {
    /// A sink that takes at most `piece` bytes per call and at most `room` in all. Its calls are numbered from 0; those
    /// in `failing` fail, and each once `room` bytes were received.
    ///
    /// # Errors
    /// `Memory` where the room is not to be had.
    pub fn new(
        alloc: Global,
        room: usize,
        piece: usize,
        failing: Vec<u64>,
    ) -> Result<MemSink, Memory>
        requires { 0 < piece }
        ensures received { IfOk result (λ s. s.received ≡ []) }
        ensures room { IfOk result (λ s. s.room ≡ room) }
        ensures piece { IfOk result (λ s. s.piece ≡ piece) }
        ensures calls { IfOk result (λ s. s.calls ≡ no_calls failing.items) }
    {
        let received = Vec::with_capacity(alloc, room)?;
        Ok(MemSink {
            received,
            room,
            piece,
            calls: Calls::new(failing),
        })
    }

    /// All that was received, in order.
    pub fn received(&self) -> &[u8]
        ensures { result.now ≡ self.now.received }
    {
        &self.received
    }
}

impl Sink for MemSink {
    ghost state = { λ s. record { received = Some s.received; faults = s.calls.faults } };

    /// Fails exactly at a listed call and where the sink is full, and else takes as much as `piece` and the room allow.
    fn put(&mut self, piece: &[u8]) -> Result<usize, Failed>
        requires { 0 < length piece.now }
        ensures some { IfOk result (λ n. 0 < n) }
        ensures bound { IfOk result (λ n. n ≤ length piece.now) }
        ensures bytes { IfOk result (λ n. self.new.received ≡ self.old.received ++
            take n piece.now) }
        ensures err { OnErr result (self.new.received ≡ self.old.received) }
        ensures cause { HasCause self.old.calls.faults self.new.calls.faults result }
        ensures fails { IsErr result ↔ FailsNext self.old }
        ensures count { IfOk result (λ n. n ≡ min (min (length piece.now) self.old.piece)
            (self.old.room - length self.old.received)) }
        ensures room { self.new.room ≡ self.old.room }
        ensures piece { self.new.piece ≡ self.old.piece }
        ensures counted { OnErr result (self.new.calls ≡ after_call self.old.calls true) }
        ensures uncounted { OnOk result (self.new.calls ≡ after_call self.old.calls false) }
    {
        let left = self.room - self.received.len();
        let fails = self.calls.is_listed() || left == 0;
        self.calls.make(fails);
        if fails {
            return Err(Failed);
        }
        let count = piece.len().min(self.piece).min(left);
        match self.received.extend_from_slice(&piece[..count]) {
            Ok(()) => Ok(count),
            Err(_) => unreachable!(),
        }
    }
}
