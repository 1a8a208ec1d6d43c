//! The form `check`: whether a schedule is in the grammar and within the limits.

ghost use Rattle.std.specs.Prelude.{◌≡◌, ◌≢◌, ◌⊎◌, ◌++◌, ℕ, List, [], length, Some};
ghost use Rattle.iot_bytes.specs.Causes.{Rose};
ghost use Rattle.run_loop.specs.Edges.{edge, HasCauses};
ghost use Rattle.run_loop.specs.Sends.{HasSent};
ghost use Rattle.line_loop.specs.Lines.{lines_of};
ghost use Rattle.schedule_forms.specs.Checks.{ok_line};
ghost use Rattle.schedule_forms.specs.Schedules.{AreHandled, Checked, StopsWith};

use crate::check_part::CheckPart;
use iot_bytes::{Sink, Source};
use line_loop::serve_lines;
use std::alloc::Global;

/// Checks the schedule of a source: runs nothing, sends `ok` and the number of its lines, and gives
/// the exit status.
pub fn run_check<S: Source, K: Sink>(alloc: Global, source: &mut S, sink: &mut K) -> u8
    // What was read and sent, by the status.
    ensures ran { Checked result
        (edge (S.rest source.old) (S.faults source.old) (K.sent sink.old) (K.faults sink.old))
        (edge (S.rest source.new) (S.faults source.new) (K.sent sink.new) (K.faults sink.new)) }
    // Status 1 is that of other words.
    ensures own { result ≢ 1 }
    // Statuses 2 and 3 come only where a call on the source or on the sink failed.
    ensures causes { HasCauses
        (edge (S.rest source.old) (S.faults source.old) (K.sent sink.old) (K.faults sink.old))
        (edge (S.rest source.new) (S.faults source.new) (K.sent sink.new) (K.faults sink.new))
        (result ≡ 2) (result ≡ 3) }
    // With status 0 the source was read to its end, its lines are a schedule within the limits, and
    // their number was sent.
    ensures done { (input : List ℕ) → S.rest source.old ≡ Some input → result ≡ 0
        → (S.rest source.new ≡ Some []) × AreHandled (lines_of input)
        × HasSent (K.sent sink.old) (K.sent sink.new) (ok_line (length (lines_of input))) }
    // Such lines give no other status where no call on the source or the sink fails and memory
    // suffices.
    ensures complete { (input : List ℕ) → S.rest source.old ≡ Some input
        → lines_of input ≢ [] → AreHandled (lines_of input)
        → ¬ Rose (S.faults source.old) (S.faults source.new)
        → ¬ Rose (K.faults sink.old) (K.faults sink.new)
        → (result ≡ 0) ⊎ (result ≡ 6) }
    // Where the lines stop being such ones, the status and the stop line say so.
    ensures stops { (input : List ℕ) (ls more : List (List ℕ)) → S.rest source.old ≡ Some input
        → lines_of input ≡ ls ++ more → AreHandled ls
        → ¬ Rose (S.faults source.old) (S.faults source.new)
        → ¬ Rose (K.faults sink.old) (K.faults sink.new)
        → StopsWith ls more result (K.sent sink.old) (K.sent sink.new) }
{
    let mut part = CheckPart::new();
    serve_lines(alloc, &mut part, source, sink, &mut (), &mut ()).status()
}
