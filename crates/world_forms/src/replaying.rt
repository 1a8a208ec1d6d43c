//! The form `replay`: a schedule, line by line, with its trace.

ghost use Rattle.std.specs.Prelude.{◌≡◌, ◌≢◌, ◌++◌, ℕ, List, [], map, Some, true};
ghost use Rattle.iot_bytes.specs.Causes.{Rose};
ghost use Rattle.line_loop.specs.Lines.{lines_of};
ghost use Rattle.modem_bank.specs.Modems.{Seen};
ghost use Rattle.modem_bank.specs.Telling.{TellsOne};
ghost use Rattle.run_loop.specs.Edges.{edge, HasCauses};
ghost use Rattle.schedule_forms.specs.Schedules.{AreHandled};
ghost use Rattle.world_text.specs.Putting.{PutsOne};
ghost use Rattle.world_forms.specs.Ends.{EndsWell, IsDone, StopsWith};
ghost use Rattle.world_forms.specs.Replays.{Replayed};

use crate::replay_part::ReplayPart;
use chip_port::Bench;
use iot_bytes::{NoMemory, Row, Sink, Source};
use line_loop::serve_lines;
use sgp_values::Iccid;
use std::alloc::Global;

/// Replays the schedule of a source over a bench and the modems that are lent: each line is read
/// and stepped and its text sent before the next one is read. Gives the exit status. `tell` tells
/// one modem, and `put` appends what one shows and counts.
pub fn run_replay<
    S: Source,
    K: Sink,
    B: Bench,
    T: Drop,
    F: Fn(&mut T, &Option<Iccid>) + Copy + Drop,
    G: Fn(&mut Row<u8>, &T) -> Result<(), NoMemory> + Copy + Drop,
>(
    alloc: Global,
    source: &mut S,
    sink: &mut K,
    bench: &mut B,
    modems: &mut Vec<T>,
    tell: F,
    put: G,
) -> u8
    requires tells { F.IsAlwaysCallable tell }
    requires puts { G.IsAlwaysCallable put }
    // What was read and sent, the run that it is, and what the bench and the modems keep of it.
    ensures replayed { (view : T → Seen) → TellsOne F.Fn tell view → PutsOne G.Fn put view
        → Replayed (map view modems.old.items) result
        (edge (S.rest source.old) (S.faults source.old) (K.sent sink.old) (K.faults sink.old))
        (edge (S.rest source.new) (S.faults source.new) (K.sent sink.new) (K.faults sink.new))
        (B.sees bench.old) (B.sees bench.new) (map view modems.new.items) }
    // Status 1 is that of other words.
    ensures own { result ≢ 1 }
    // Statuses 2 and 3 come only where a call on the source or on the sink failed.
    ensures causes { HasCauses
        (edge (S.rest source.old) (S.faults source.old) (K.sent sink.old) (K.faults sink.old))
        (edge (S.rest source.new) (S.faults source.new) (K.sent sink.new) (K.faults sink.new))
        (result ≡ 2) (result ≡ 3) }
    // Status 4 comes only where a call on the bench failed.
    ensures broke { result ≡ 4 → Rose (B.sees bench.old).faults (B.sees bench.new).faults }
    // Over a bench that tells its content, with status 0 the source was read to its end, its lines
    // are a schedule within the limits, and what was sent is the trace of their run.
    ensures done { (view : T → Seen) (input : List ℕ) → TellsOne F.Fn tell view
        → PutsOne G.Fn put view → (B.sees bench.old).told ≡ true
        → S.rest source.old ≡ Some input → result ≡ 0
        → IsDone (map view modems.old.items) input (S.rest source.new) (K.sent sink.old)
        (K.sent sink.new) }
    // Such lines are replayed to their end where no call on the source or the sink fails: unless
    // memory is wanting, a message passes the limit, or a call fails while the card is
    // personalised.
    ensures complete { (view : T → Seen) (input : List ℕ) → TellsOne F.Fn tell view
        → PutsOne G.Fn put view → (B.sees bench.old).told ≡ true
        → S.rest source.old ≡ Some input → lines_of input ≢ [] → AreHandled (lines_of input)
        → ¬ Rose (S.faults source.old) (S.faults source.new)
        → ¬ Rose (K.faults sink.old) (K.faults sink.new)
        → EndsWell (map view modems.old.items) (B.sees bench.old) (B.sees bench.new)
        (map view modems.new.items) (lines_of input) result }
    // Where the lines stop being such ones, the status and what was sent say so, with the same
    // exceptions.
    ensures stops { (view : T → Seen) (input : List ℕ) (ls more : List (List ℕ))
        → TellsOne F.Fn tell view → PutsOne G.Fn put view → (B.sees bench.old).told ≡ true
        → S.rest source.old ≡ Some input → lines_of input ≡ ls ++ more → AreHandled ls
        → ¬ Rose (S.faults source.old) (S.faults source.new)
        → ¬ Rose (K.faults sink.old) (K.faults sink.new)
        → StopsWith (map view modems.old.items) (B.sees bench.old) (B.sees bench.new)
        (map view modems.new.items) ls more result (K.sent sink.old) (K.sent sink.new) }
{
    let mut part = ReplayPart {
        world: None,
        tell,
        put,
    };
    serve_lines(alloc, &mut part, source, sink, bench, modems).status()
}
