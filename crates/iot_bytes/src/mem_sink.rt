//! A sink in memory.

ghost use Rattle.std.specs.Prelude.{◌≡◌, ◌<◌, ◌≤◌, ◌-◌, ◌↔◌, ◌⊎◌, [], IsErr, IfOk, OnErr, Contains};
ghost use Rattle.std.specs.Prelude.{min, List, ℕ, length, Some, Option, None};
ghost use Rattle.iot_bytes.specs.Causes.{Counts, HasCause};
ghost use Rattle.iot_bytes.specs.Streams.{Writes};
ghost use Rattle.iot_bytes.specs.InMemory.{OutputCalled};

use crate::memory::NoMemory;
use crate::reserve::Reserve;
use crate::row::Row;
use crate::sink::Sink;
use crate::source::Failed;
use std::alloc::Global;
use std::marker::Model;

/// A sink that keeps what it takes, and fails at the calls that are named.
#[derive(Debug, Drop)]
pub struct MemSink {
    taken: Reserve<u8>,
    room: usize,
    piece: usize,
    failing: Row<u64>,
    calls: u64,
    faults: u64,
}

impl Model for MemSink {
    ghost use Rattle.std.specs.Prelude.{◌≤◌, ◌+◌, length};
    ghost use Rattle.iot_bytes.specs.InMemory.{MemOutput};

    ghost Value = { MemOutput };

    ghost view = { λ s. record { taken = s.taken.items; room = s.room; piece = s.piece; failing = s.failing; calls = s.calls; faults = s.faults } };

    ghost invariant = { λ s. (length s.taken.items ≤ s.room)
        × (s.room ≤ length s.taken.items + s.taken.spare) × (1 ≤ s.piece) };
}

impl MemSink {
    /// A sink that takes up to `room` octets in all, and at most `piece` of them a call.
    ///
    /// The calls whose numbers, from 0, stand in `failing` fail, and each call once `room` octets
    /// are taken. It takes all its memory here.
    pub fn new(
        alloc: Global,
        room: usize,
        piece: usize,
        failing: Row<u64>,
    ) -> Result<MemSink, NoMemory>
        requires { 1 ≤ piece }
        ensures { IfOk result
            (λ sink. sink
            ≡ record { taken = []; room = room; piece = piece; failing = failing; calls = 0; faults = 0 }) }
    {
        Ok(MemSink {
            taken: Reserve::with_room(alloc, room)?,
            room,
            piece,
            failing,
            calls: 0,
            faults: 0,
        })
    }

    /// The octets taken so far, in their order.
    pub fn taken(&self) -> &[u8]
        ensures { result.now ≡ self.now.taken }
    {
        self.taken.as_slice()
    }
}

impl Sink for MemSink {
    ghost sent = { λ s. Some s.taken };

    ghost faults = { λ s. s.faults };

    fn write(&mut self, bytes: &[u8]) -> Result<usize, Failed>
        requires { 0 < length bytes.now }
        ensures some { IfOk result (λ n. 1 ≤ n) }
        ensures bound { IfOk result (λ n. n ≤ length bytes.now) }
        ensures octets { Writes (Some self.old.taken) (Some self.new.taken) result bytes.now }
        ensures cause { HasCause self.old.faults self.new.faults result }
        ensures fails { IsErr result ↔ (Contains self.old.failing self.old.calls ⊎
            (length self.old.taken ≡ self.old.room)) }
        ensures takes { IfOk result (λ n. n ≡ min (min (length bytes.now) self.old.piece)
            (self.old.room - length self.old.taken)) }
        ensures called { OutputCalled self.old self.new }
        ensures counts { Counts self.old.faults self.new.faults result }
    {
        let call = self.calls;
        self.calls = self.calls.saturating_add(1);
        let left = self.room - self.taken.len();
        if left == 0 || self.failing.as_slice().contains(&call) {
            self.faults = self.faults.saturating_add(1);
            return Err(Failed);
        }
        let n = bytes.len().min(self.piece).min(left);
        if self.taken.append(&bytes[..n]).is_err() {
            self.faults = self.faults.saturating_add(1);
            return Err(Failed);
        }
        Ok(n)
    }
}
