//! Where octets come from.

ghost use Rattle.std.specs.Prelude.{◌≡◌, ℕ, ◌+◌, ◌<◌, ◌≤◌, List, [], length, take, drop, Option};
ghost use Rattle.std.specs.Prelude.{Some, None, IfOk};
ghost use Rattle.iot_bytes.specs.Causes.{HasCause};
ghost use Rattle.iot_bytes.specs.Streams.{Reads};

use thiserror::Error;

/// The outside failed. It is answered only by a call whose object raised its count of faults.
#[derive(Clone, Copy, Debug, PartialEq, Eq, Error)]
#[error("the source or sink failed")]
pub struct Failed;

/// Where octets come from.
///
/// Whether a source tells its octets is fixed when it is made. Its count of faults never falls.
pub trait Source {
    /// The octets still to come, where the source tells them.
    ghost rest: { Self → Option (List ℕ) };

    /// How many calls failed.
    ghost faults: { Self → ℕ };

    /// Writes the next octets to the front of `out`, and answers how many. 0 is the end.
    ///
    /// A call that fails takes no octet.
    fn read(&mut self, out: &mut [u8]) -> Result<usize, Failed>
        requires { 0 < length out.old }
        ensures bound { IfOk result (λ n. n ≤ length out.new) }
        ensures octets { Reads (rest self.old) (rest self.new) result out.new }
        ensures cause { HasCause (faults self.old) (faults self.new) result };
}
