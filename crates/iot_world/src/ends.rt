//! How a line ends that prints nothing.

ghost use Rattle.std.specs.Prelude.{◌≡◌};
ghost use Rattle.iot_world.specs.Ends.{of_send};
ghost use Rattle.iot_world.specs.Halting.{halting};

use iot_bytes::NoMemory;
use world_network::SendEnd;

/// Why a line prints nothing. After it the world isn't stepped again.
#[derive(Clone, Copy, Debug, PartialEq, Eq)]
pub enum Halt {
    /// A message of the line would bring the octets of all messages above their limit.
    Limit,
    /// A boot found octets that stand for no card. It never comes over a bench that tells its
    /// content.
    Foreign,
    /// Memory ran out.
    NoMemory,
}

/// Why a line halts whose message isn't sent.
pub(crate) fn of_send(end: SendEnd) -> Halt
    ensures { result ≡ of_send end }
{
    match end {
        SendEnd::Limit => Halt::Limit,
        SendEnd::NoMemory => Halt::NoMemory,
    }
}

/// The line halts where memory ran out for its text.
pub(crate) fn halting(put: Result<(), NoMemory>) -> Result<(), Halt>
    ensures { result ≡ halting put }
{
    match put {
        Ok(()) => Ok(()),
        Err(NoMemory) => Err(Halt::NoMemory),
    }
}
