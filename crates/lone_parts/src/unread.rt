ghost use Rattle.std.specs.Prelude.{◌≡◌};
ghost use Rattle.lone_parts.specs.Folds.{stop_of};

use iot_bytes::ReadError;
use run_loop::PartStop;

/// Why a frame that wasn't read has no answer.
pub(crate) fn unread(error: ReadError) -> PartStop
    ensures { result ≡ stop_of error }
{
    match error {
        ReadError::Malformed => PartStop::Malformed,
        ReadError::NoMemory => PartStop::NoMemory,
    }
}
