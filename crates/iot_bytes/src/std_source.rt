//! The trusted edge: a reader of std as a source.

ghost use Rattle.std.specs.Prelude.{◌≡◌, ◌<◌, ◌≤◌, List, ℕ, Option, None, length, IfOk, OnOk};
ghost use Rattle.std.specs.Io.KnownBytes.{ReadConsumes};
ghost use Rattle.iot_bytes.specs.Causes.{Counts, HasCause};
ghost use Rattle.iot_bytes.specs.Streams.{Reads};

use crate::source::{Failed, Source};
use std::io::Read;
use std::marker::Model;

/// A reader of std as a source. It tells no octets, and its count stops at the last `u64`.
#[derive(Drop)]
pub struct StdSource<R> {
    reader: R,
    faults: u64,
}

impl<R> Model for StdSource<R> {
    ghost use Rattle.iot_bytes.specs.Adapter.{Adapter, adapter_code};

    ghost Value = { Adapter R };

    ghost coded = { adapter_code R.code };

    ghost view = { λ s. record { inner = s.reader; faults = s.faults } };
}

impl<R: Read> StdSource<R> {
    /// The reader as it is, with a count of 0. It takes no memory.
    pub fn new(reader: R) -> StdSource<R>
        ensures { result ≡ record { inner = reader; faults = 0 } }
    {
        StdSource { reader, faults: 0 }
    }
}

impl<R: Read> Source for StdSource<R> {
    ghost rest = { λ _. None };

    ghost faults = { λ s. s.faults };

    fn read(&mut self, out: &mut [u8]) -> Result<usize, Failed>
        requires { 0 < length out.old }
        ensures bound { IfOk result (λ n. n ≤ length out.new) }
        ensures octets { Reads None None result out.new }
        ensures cause { HasCause self.old.faults self.new.faults result }

        // What the reader knows of its bytes is passed on, and each failure is counted.
        ensures passes { ReadConsumes (R.remaining self.old.inner)
            (R.remaining self.new.inner) result out.new }
        ensures counts { Counts self.old.faults self.new.faults result }
    {
        let Ok(n) = self.reader.read(out) else {
            self.faults = self.faults.saturating_add(1);
            return Err(Failed);
        };
        Ok(n)
    }
}
