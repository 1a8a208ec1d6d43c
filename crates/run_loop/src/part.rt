//! What answers frames.

ghost use Rattle.std.specs.Prelude.{[], OnOk};
ghost use Rattle.run_loop.specs.Parts.{Walk, Stopping, Answers};

use crate::halt::PartStop;
use iot_bytes::Row;
use std::alloc::Global;

/// What answers frames one after the other, over an outside that is lent to it for each of them:
/// `()` where it needs none.
pub trait Part<W> {
    /// What has to hold of the part and its outside before each frame; by default nothing has to.
    ghost ready: { Self × W → Type 0 } = { λ _. Unit {0} };

    /// From the first part and outside on these frames led to the second, and this text is their
    /// answers: the frame of each, one behind the other.
    ghost behind: { Self × W → Self × W → Walk };

    /// From the first part and outside on these frames, with this text, led to ones that stopped
    /// for this reason at the further frame, and so to the second.
    ghost stops: { Self × W → Self × W → Stopping };

    /// Appends the answer to a frame.
    ///
    /// # Errors
    /// Why it has none. What was appended then isn't sent.
    fn answer(
        &mut self,
        alloc: Global,
        outside: &mut W,
        octets: &[u8],
        out: &mut Row<u8>,
    ) -> Result<(), PartStop>
        requires { ready (self.old, outside.old) }
        ensures answers { Answers behind stops (self.old, outside.old) (self.new, outside.new)
            octets.now out.old out.new result }
        ensures ready { OnOk result (ready (self.new, outside.new)) };

    /// The law that no frame leads nowhere.
    ghost begins: { (first : Self × W) → behind first first [] [] };
}
