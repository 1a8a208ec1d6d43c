//! The trusted edge: a writer of std as a sink.

ghost use Rattle.std.specs.Prelude.{◌≡◌, ◌<◌, ◌≤◌, List, ℕ, Option, None, length, IfOk, OnOk};
ghost use Rattle.std.specs.Io.KnownBytes.{WriteAppends};
ghost use Rattle.iot_bytes.specs.Causes.{Counts, HasCause};
ghost use Rattle.iot_bytes.specs.Streams.{Writes};

use crate::sink::Sink;
use crate::source::Failed;
use std::io::Write;
use std::marker::Model;

/// A writer of std as a sink. It tells no octets, and its count stops at the last `u64`.
#[derive(Drop)]
pub struct StdSink<W> {
    writer: W,
    faults: u64,
}

impl<W> Model for StdSink<W> {
    ghost use Rattle.iot_bytes.specs.Adapter.{Adapter, adapter_code};

    ghost Value = { Adapter W };

    ghost coded = { adapter_code W.code };

    ghost view = { λ s. record { inner = s.writer; faults = s.faults } };
}

impl<W: Write> StdSink<W> {
    /// The writer as it is, with a count of 0. It takes no memory.
    pub fn new(writer: W) -> StdSink<W>
        ensures { result ≡ record { inner = writer; faults = 0 } }
    {
        StdSink { writer, faults: 0 }
    }
}

impl<W: Write> Sink for StdSink<W> {
    ghost sent = { λ _. None };

    ghost faults = { λ s. s.faults };

    /// A writer that takes no octet counts as failed.
    fn write(&mut self, bytes: &[u8]) -> Result<usize, Failed>
        requires { 0 < length bytes.now }
        ensures some { IfOk result (λ n. 1 ≤ n) }
        ensures bound { IfOk result (λ n. n ≤ length bytes.now) }
        ensures octets { Writes None None result bytes.now }
        ensures cause { HasCause self.old.faults self.new.faults result }

        // What the writer knows of its bytes is passed on, and each failure is counted.
        ensures passes { WriteAppends (W.contents self.old.inner)
            (W.contents self.new.inner) result bytes.now }
        ensures counts { Counts self.old.faults self.new.faults result }
    {
        match self.writer.write(bytes) {
            Ok(n) if n > 0 => Ok(n),
            _ => {
                self.faults = self.faults.saturating_add(1);
                Err(Failed)
            }
        }
    }
}
