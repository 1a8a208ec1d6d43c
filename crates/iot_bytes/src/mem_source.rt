//! A source in memory.

ghost use Rattle.std.specs.Prelude.{◌≡◌, ◌<◌, ◌≤◌, ◌↔◌, IsErr, IfOk, Contains, min, List, ℕ};
ghost use Rattle.std.specs.Prelude.{length, Some, Option, None, drop};
ghost use Rattle.iot_bytes.specs.Causes.{Counts, HasCause};
ghost use Rattle.iot_bytes.specs.Streams.{Reads};
ghost use Rattle.iot_bytes.specs.InMemory.{InputCalled};

use crate::row::Row;
use crate::source::{Failed, Source};
use std::marker::Model;

/// A source that tells its octets and fails at the calls that are named.
#[derive(Debug, Drop)]
pub struct MemSource {
    bytes: Row<u8>,
    at: usize,
    piece: usize,
    failing: Row<u64>,
    calls: u64,
    faults: u64,
}

impl Model for MemSource {
    ghost use Rattle.std.specs.Prelude.{◌≤◌, drop, length};
    ghost use Rattle.iot_bytes.specs.InMemory.{MemInput};

    ghost Value = { MemInput };

    ghost view = { λ s. record { left = drop s.at s.bytes; piece = s.piece; failing = s.failing; calls = s.calls; faults = s.faults } };

    ghost invariant = { λ s. (s.at ≤ length s.bytes) × (1 ≤ s.piece) };
}

impl MemSource {
    /// A source of these octets.
    ///
    /// It gives at most `piece` octets a call. The calls whose numbers, from 0, stand in `failing`
    /// fail and change nothing but the counts. It takes no memory.
    pub fn new(bytes: Row<u8>, piece: usize, failing: Row<u64>) -> MemSource
        requires { 1 ≤ piece }
        ensures { result ≡ record { left = bytes; piece = piece; failing = failing; calls = 0; faults = 0 } }
    {
        MemSource {
            bytes,
            at: 0,
            piece,
            failing,
            calls: 0,
            faults: 0,
        }
    }
}

impl Source for MemSource {
    ghost rest = { λ s. Some s.left };

    ghost faults = { λ s. s.faults };

    fn read(&mut self, out: &mut [u8]) -> Result<usize, Failed>
        requires { 0 < length out.old }
        ensures bound { IfOk result (λ n. n ≤ length out.new) }
        ensures octets { Reads (Some self.old.left) (Some self.new.left) result out.new }
        ensures cause { HasCause self.old.faults self.new.faults result }
        ensures fails { IsErr result ↔ Contains self.old.failing self.old.calls }
        ensures gives { IfOk result (λ n. n ≡ min (min (length out.new) self.old.piece)
            (length self.old.left)) }
        ensures called { InputCalled self.old self.new }
        ensures counts { Counts self.old.faults self.new.faults result }
    {
        let call = self.calls;
        self.calls = self.calls.saturating_add(1);
        if self.failing.as_slice().contains(&call) {
            self.faults = self.faults.saturating_add(1);
            return Err(Failed);
        }
        let left = &self.bytes.as_slice()[self.at..];
        let n = out.len().min(self.piece).min(left.len());
        out[..n].copy_from_slice(&left[..n]);
        self.at += n;
        Ok(n)
    }
}
