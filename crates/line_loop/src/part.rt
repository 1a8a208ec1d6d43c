//! What handles lines.

ghost use Rattle.std.specs.Prelude.{[], OnOk};
ghost use Rattle.run_loop.specs.Parts.{Walk};
ghost use Rattle.line_loop.specs.Parts.{Scene, scene, Stopping, Ending, Handles, Finishes};

use crate::halt::{EndStop, LineStop};
use iot_bytes::Row;
use std::alloc::Global;

/// What handles lines one after the other, lent a bench and modems that the loop only hands on.
pub trait LinePart<B, M> {
    /// What has to hold of the scene before each line; by default nothing has to.
    ghost ready: { Scene Self B M → Type 0 } = { λ _. Unit {0} };

    /// From the first scene on these lines led to the second, and this text is sent for them: the
    /// text of each, one behind the other.
    ghost behind: { Scene Self B M → Scene Self B M → Walk };

    /// From the first scene on these lines, with this text, led to a scene that stopped for this
    /// reason at the further line, and so to the second scene.
    ghost stops: { Scene Self B M → Scene Self B M → Stopping };

    /// From the first scene on these lines, with this text, led to the second, and where the input
    /// ends there this is the closing text, or why the input may not end there.
    ghost ends: { Scene Self B M → Scene Self B M → Ending };

    /// Handles a line, which comes without its end, and appends the text that is sent for it.
    ///
    /// # Errors
    /// Why it doesn't. What was appended then isn't sent.
    fn handle(
        &mut self,
        alloc: Global,
        line: &[u8],
        bench: &mut B,
        modems: &mut M,
        out: &mut Row<u8>,
    ) -> Result<(), LineStop>
        requires { ready (scene self.old bench.old modems.old) }
        ensures handles { Handles behind stops (scene self.old bench.old modems.old)
            (scene self.new bench.new modems.new) line.now out.old out.new result }
        ensures ready { OnOk result (ready (scene self.new bench.new modems.new)) };

    /// Appends the closing text.
    ///
    /// # Errors
    /// Why the input may not end here. What was appended then isn't sent.
    fn finish(&self, alloc: Global, out: &mut Row<u8>) -> Result<(), EndStop>
        ensures { (bench : B) (modems : M)
            → Finishes behind ends (scene self.now bench modems) out.old out.new result };

    /// The law that no line leads nowhere.
    ghost begins: { (first : Scene Self B M) → behind first first [] [] };
}
