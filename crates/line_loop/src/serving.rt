//! The loop: a line is read and handled, and its text sent, before the next one is read.

ghost use Rattle.std.specs.Prelude.{ℕ, ◌<◌, List, Option, OnOk};
ghost use Rattle.run_loop.specs.Edges.{Edge, edge};
ghost use Rattle.line_loop.specs.Parts.{Scene, scene};
ghost use Rattle.line_loop.specs.Runs.{Progress, Turned, Halted, Ended};
ghost use Rattle.line_loop.specs.declared.halt.Halt.TheVariants.{Reading};

use crate::halt::{Halt, NoLine, RunEnd};
use crate::part::LinePart;
use crate::reading::{MOST_LINES, next_line, no_further};
use crate::sending::send_stop_line;
use iot_bytes::{Row, Sink, Source};
use run_loop::{send_last, send_octets};
use std::alloc::Global;

/// Why no more lines are handled, and the number of the line in hand, from 1.
#[derive(Clone, Copy)]
struct Last {
    halt: Halt,
    number: u64,
}

// Reads a line, has it handled and sends its text.
fn turn<B, M, P: LinePart<B, M>, S: Source, K: Sink>(
    alloc: Global,
    part: &mut P,
    source: &mut S,
    sink: &mut K,
    bench: &mut B,
    modems: &mut M,
) -> Result<(), Halt>
    requires { P.ready (scene part.old bench.old modems.old) }
    ensures turned { (first : Scene P B M) (start : Edge) (count : ℕ) → count < MOST_LINES
        → Progress (P.behind first (scene part.old bench.old modems.old)) start
        (edge (S.rest source.old) (S.faults source.old) (K.sent sink.old) (K.faults sink.old))
        count
        → Turned (P.behind first (scene part.new bench.new modems.new))
        (P.stops first (scene part.new bench.new modems.new)) start
        (edge (S.rest source.new) (S.faults source.new) (K.sent sink.new) (K.faults sink.new))
        count result }
    ensures ready { OnOk result (P.ready (scene part.new bench.new modems.new)) }
{
    let line = next_line(alloc, source)?;
    let mut out = Row::new(alloc);
    part.handle(alloc, line.as_slice(), bench, modems, &mut out)?;
    send_octets(out.as_slice(), sink)?;
    Ok(())
}

// Handles the lines, until something ends the run.
fn handle<B, M, P: LinePart<B, M>, S: Source, K: Sink>(
    alloc: Global,
    part: &mut P,
    source: &mut S,
    sink: &mut K,
    bench: &mut B,
    modems: &mut M,
) -> Last
    requires { P.ready (scene part.old bench.old modems.old) }
    ensures { Halted
        (P.behind (scene part.old bench.old modems.old) (scene part.new bench.new modems.new))
        (P.stops (scene part.old bench.old modems.old) (scene part.new bench.new modems.new))
        (edge (S.rest source.old) (S.faults source.old) (K.sent sink.old) (K.faults sink.old))
        (edge (S.rest source.new) (S.faults source.new) (K.sent sink.new) (K.faults sink.new))
        result.number result.halt }
{
    for handled in 0..MOST_LINES {
        match turn(alloc, part, source, sink, bench, modems) {
            Ok(()) => {}
            Err(halt) => {
                let number = u64::from(handled) + 1;
                return Last { halt, number };
            }
        }
    }
    let stop = no_further(alloc, source);
    Last {
        halt: Halt::Reading(stop),
        number: u64::from(MOST_LINES) + 1,
    }
}

// Sends the closing text at the end of the input, or the stop line where it may not end there.
fn finish<B, M, P: LinePart<B, M>, K: Sink>(
    alloc: Global,
    part: &P,
    number: u64,
    sink: &mut K,
) -> RunEnd
    ensures { (bench : B) (modems : M) (first : Scene P B M) (start : Edge)
        (rest : Option (List ℕ)) (reads : ℕ)
        → Halted (P.behind first (scene part.now bench modems))
        (P.stops first (scene part.now bench modems)) start
        (edge rest reads (K.sent sink.old) (K.faults sink.old)) number (Reading NoLine.End)
        → Ended (P.behind first (scene part.now bench modems))
        (P.stops first (scene part.now bench modems))
        (P.ends first (scene part.now bench modems)) start
        (edge rest reads (K.sent sink.new) (K.faults sink.new)) result }
{
    let mut out = Row::new(alloc);
    match part.finish(alloc, &mut out) {
        Ok(()) => {
            let halt = Halt::Reading(NoLine::End);
            let closing = send_last(out.as_slice(), sink);
            RunEnd { halt, closing }
        }
        Err(stop) => {
            let halt = Halt::Ending(stop);
            let closing = send_stop_line(alloc, halt, number, sink);
            RunEnd { halt, closing }
        }
    }
}

/// Has the lines of a source handled, until something ends the run, and sends the closing text or
/// writes the stop line.
pub fn serve_lines<B, M, P: LinePart<B, M>, S: Source, K: Sink>(
    alloc: Global,
    part: &mut P,
    source: &mut S,
    sink: &mut K,
    bench: &mut B,
    modems: &mut M,
) -> RunEnd
    requires { P.ready (scene part.old bench.old modems.old) }
    ensures { Ended
        (P.behind (scene part.old bench.old modems.old) (scene part.new bench.new modems.new))
        (P.stops (scene part.old bench.old modems.old) (scene part.new bench.new modems.new))
        (P.ends (scene part.old bench.old modems.old) (scene part.new bench.new modems.new))
        (edge (S.rest source.old) (S.faults source.old) (K.sent sink.old) (K.faults sink.old))
        (edge (S.rest source.new) (S.faults source.new) (K.sent sink.new) (K.faults sink.new))
        result }
{
    let last = handle(alloc, part, source, sink, bench, modems);
    if last.halt.is_end() {
        return finish(alloc, part, last.number, sink);
    }
    let closing = send_stop_line(alloc, last.halt, last.number, sink);
    RunEnd {
        halt: last.halt,
        closing,
    }
}
