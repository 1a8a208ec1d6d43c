//! The form `demo`: a generated schedule is replayed, and one line tells what became of it.

ghost use Rattle.std.specs.Prelude.{◌≡◌, ◌≢◌, ◌^◌, ◌<◌, ◌≤◌, map, Err};
ghost use Rattle.iot_bytes.specs.Causes.{Rose};
ghost use Rattle.run_loop.specs.Sends.{Closes};
ghost use Rattle.modem_bank.specs.Modems.{Seen};
ghost use Rattle.modem_bank.specs.Telling.{TellsOne};
ghost use Rattle.world_text.specs.Putting.{PutsOne};
ghost use Rattle.world_forms.specs.Demos.{Demonstrated, halt_of, is_due, last_text};

use crate::playing::{Stopped, play_lines};
use crate::tally::Tally;
use chip_port::Bench;
use iot_bytes::{NoMemory, Row, Sink};
use line_loop::{Halt, NoLine, RunEnd, send_stop_line};
use run_loop::{SendStop, send_last};
use sgp_values::Iccid;
use std::alloc::Global;

fn halt_of(end: Result<Tally, Stopped>) -> Halt
    ensures { result ≡ halt_of end }
{
    match end {
        Ok(_) => Halt::Reading(NoLine::End),
        Err(at) => Halt::Handling(at.stop),
    }
}

// Sends the counts, or the stop line where one is due.
fn close<K: Sink>(
    alloc: Global,
    lines: u32,
    end: Result<Tally, Stopped>,
    sink: &mut K,
) -> Result<(), SendStop>
    ensures closes { Closes (is_due end) (K.sent sink.old) (K.sent sink.new)
        (last_text lines end) result }
    ensures fault { result ≡ Err SendStop.Fault → Rose (K.faults sink.old) (K.faults sink.new) }
    ensures monotone { K.faults sink.old ≤ K.faults sink.new }
{
    match end {
        Ok(tally) => match tally.demo_line(alloc, lines) {
            Ok(text) => send_last(text.as_slice(), sink),
            Err(NoMemory) => Err(SendStop::NoMemory),
        },
        Err(at) => send_stop_line(alloc, Halt::Handling(at.stop), u64::from(at.number), sink),
    }
}

/// Replays the schedule of so many lines that the generator makes from a start, and sends one line
/// that tells what became of them. Keeps counts of what is printed, and not the trace. Gives the
/// exit status. `tell` tells one modem, and `put` appends what one shows and counts.
pub fn run_demo<
    K: Sink,
    B: Bench,
    T: Drop,
    F: Fn(&mut T, &Option<Iccid>) + Copy + Drop,
    G: Fn(&mut Row<u8>, &T) -> Result<(), NoMemory> + Copy + Drop,
>(
    alloc: Global,
    start: u32,
    lines: u32,
    sink: &mut K,
    bench: &mut B,
    modems: &mut Vec<T>,
    tell: F,
    put: G,
) -> u8
    requires tells { F.IsAlwaysCallable tell }
    requires puts { G.IsAlwaysCallable put }
    requires start { start < 2 ^ 31 }
    requires some { 1 ≤ lines }
    // How the lines went, what was sent, and what the counts are those of.
    ensures demonstrated { (view : T → Seen) → TellsOne F.Fn tell view → PutsOne G.Fn put view
        → Demonstrated (map view modems.old.items) start lines result
        (K.sent sink.old) (K.sent sink.new) (B.sees bench.old) (B.sees bench.new)
        (map view modems.new.items) }
    // Status 1 is that of other words, nothing is read, and generated lines are in the grammar.
    ensures own { (result ≢ 1) × (result ≢ 2) × (result ≢ 5) }
    // Status 3 comes only where a call on the sink failed.
    ensures fault { result ≡ 3 → Rose (K.faults sink.old) (K.faults sink.new) }
    ensures monotone { K.faults sink.old ≤ K.faults sink.new }
    // Status 4 comes only where a call on the bench failed.
    ensures broke { result ≡ 4 → Rose (B.sees bench.old).faults (B.sees bench.new).faults }
{
    let end = play_lines(alloc, start, lines, bench, modems, tell, put);
    let halt = halt_of(end);
    let closing = close(alloc, lines, end, sink);
    RunEnd { halt, closing }.status()
}
