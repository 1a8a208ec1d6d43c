//! Where octets go.

ghost use Rattle.std.specs.Prelude.{◌≡◌, ◌<◌, ◌≤◌, ℕ, List, Option, length, IfOk, IfErr, OnErr};
ghost use Rattle.iot_bytes.specs.Causes.{HasCause, Rose};
ghost use Rattle.iot_bytes.specs.Streams.{Writes, Sends};

use crate::source::Failed;
use thiserror::Error;

/// Where octets go.
///
/// Whether a sink tells its octets is fixed when it is made. Its count of faults never falls.
pub trait Sink {
    /// The octets taken, where the sink tells them.
    ghost sent: { Self → Option (List ℕ) };

    /// How many calls failed.
    ghost faults: { Self → ℕ };

    /// Takes the first octets, at least one, and answers how many.
    ///
    /// A sink that can take none fails, and a call that fails takes none.
    fn write(&mut self, bytes: &[u8]) -> Result<usize, Failed>
        requires { 0 < length bytes.now }
        ensures some { IfOk result (λ n. 1 ≤ n) }
        ensures bound { IfOk result (λ n. n ≤ length bytes.now) }
        ensures octets { Writes (sent self.old) (sent self.new) result bytes.now }
        ensures cause { HasCause (faults self.old) (faults self.new) result };
}

/// The sink failed.
#[derive(Clone, Copy, Debug, PartialEq, Eq, Error)]
#[error("the sink failed after {sent} octets")]
pub struct WriteFault {
    /// How many octets, from the first on, the sink had taken before.
    pub sent: usize,
}

/// Sends all the octets, in as many pieces as the sink takes. It takes no memory.
pub fn send<K: Sink>(sink: &mut K, bytes: &[u8]) -> Result<(), WriteFault>
    ensures octets { Sends (K.sent sink.old) (K.sent sink.new) result (λ f. f.sent) bytes.now }
    ensures short { IfErr result (λ fault. fault.sent < length bytes.now) }
    ensures cause { HasCause (K.faults sink.old) (K.faults sink.new) result }
{
    let mut at = 0;
    while at < bytes.len() {
        match sink.write(&bytes[at..]) {
            Ok(n) => at += n,
            Err(_) => return Err(WriteFault { sent: at }),
        }
    }
    Ok(())
}
