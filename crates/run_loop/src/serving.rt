//! The loop: a frame is read, answered and sent before the next one is read.

ghost use Rattle.std.specs.Prelude.{◌≡◌, ℕ, ◌<◌, List, Option, IfErr, OnOk};
ghost use Rattle.run_loop.specs.Edges.{Edge, edge};
ghost use Rattle.run_loop.specs.Parts.{Replies};
ghost use Rattle.run_loop.specs.Runs.{Progress, Turned, Halted, Ended, IsUnopened};
ghost use Rattle.iot_bytes.specs.Frames.{blank_head};

use crate::halt::{Halt, PartStop, ReadStop, RunEnd};
use crate::part::Part;
use crate::reading::{MOST_FRAMES, next_frame, no_further};
use crate::sending::{send_octets, send_stop_record};
use iot_bytes::{NoMemory, Row, Sink, Source, begin_frame, end_frame};
use std::alloc::Global;

/// Why no more frames are answered, and the number of the frame in hand, from 1.
#[derive(Clone, Copy)]
struct Last {
    halt: Halt,
    number: u64,
}

// Empties the row for the next answer, but for the place of a frame's length. Its memory is taken
// before the frame is read, so that a frame that was read is handed to the part.
fn begin_answer(out: &mut Row<u8>) -> Result<(), ReadStop>
    ensures begun { OnOk result (out.new ≡ blank_head) }
    ensures memory { IfErr result (λ stop. stop ≡ ReadStop.NoMemory) }
{
    out.cut(0);
    match begin_frame(out) {
        Ok(()) => Ok(()),
        Err(NoMemory) => Err(ReadStop::NoMemory),
    }
}

// The frame of the part's answer, in the row that has the place of its length.
fn reply<W, P: Part<W>>(
    alloc: Global,
    part: &mut P,
    outside: &mut W,
    octets: &[u8],
    out: &mut Row<u8>,
) -> Result<(), PartStop>
    requires blank { out.old ≡ blank_head }
    requires ready { P.ready (part.old, outside.old) }
    ensures replies { Replies P.behind P.stops (part.old, outside.old) (part.new, outside.new)
        octets.now out.new result }
    ensures ready { OnOk result (P.ready (part.new, outside.new)) }
{
    part.answer(alloc, outside, octets, out)?;
    end_frame(out);
    Ok(())
}

// Reads a frame, has it answered and sends the answer, which takes the place of what the row has.
fn turn<W, P: Part<W>, S: Source, K: Sink>(
    alloc: Global,
    part: &mut P,
    outside: &mut W,
    source: &mut S,
    sink: &mut K,
    out: &mut Row<u8>,
) -> Result<(), Halt>
    requires { P.ready (part.old, outside.old) }
    ensures turned { (first : P × W) (start : Edge) (count : ℕ) → count < MOST_FRAMES
        → Progress (P.behind first (part.old, outside.old)) start
        (edge (S.rest source.old) (S.faults source.old) (K.sent sink.old) (K.faults sink.old))
        count
        → Turned (P.behind first (part.new, outside.new)) (P.stops first (part.new, outside.new))
        start
        (edge (S.rest source.new) (S.faults source.new) (K.sent sink.new) (K.faults sink.new))
        count result }
    ensures ready { OnOk result (P.ready (part.new, outside.new)) }
{
    begin_answer(out)?;
    let frame = next_frame(alloc, source)?;
    reply(alloc, part, outside, frame.as_slice(), out)?;
    send_octets(out.as_slice(), sink)?;
    Ok(())
}

// Answers the frames, until something ends the run. Their answers share the memory of one row.
fn handle<W, P: Part<W>, S: Source, K: Sink>(
    alloc: Global,
    part: &mut P,
    outside: &mut W,
    source: &mut S,
    sink: &mut K,
) -> Last
    requires { P.ready (part.old, outside.old) }
    ensures { Halted (P.behind (part.old, outside.old) (part.new, outside.new))
        (P.stops (part.old, outside.old) (part.new, outside.new))
        (edge (S.rest source.old) (S.faults source.old) (K.sent sink.old) (K.faults sink.old))
        (edge (S.rest source.new) (S.faults source.new) (K.sent sink.new) (K.faults sink.new))
        result.number result.halt }
{
    let mut out = Row::new(alloc);
    for handled in 0..MOST_FRAMES {
        match turn(alloc, part, outside, source, sink, &mut out) {
            Ok(()) => {}
            Err(halt) => {
                let number = u64::from(handled) + 1;
                return Last { halt, number };
            }
        }
    }
    let stop = no_further(alloc, source);
    Last {
        halt: Halt::Reading(stop),
        number: u64::from(MOST_FRAMES) + 1,
    }
}

/// Has the frames of a source answered, until something ends the run, and writes the stop record.
/// The part is lent the outside for each frame.
pub fn serve<W, P: Part<W>, S: Source, K: Sink>(
    alloc: Global,
    part: &mut P,
    outside: &mut W,
    source: &mut S,
    sink: &mut K,
) -> RunEnd
    requires { P.ready (part.old, outside.old) }
    ensures { Ended (P.behind (part.old, outside.old) (part.new, outside.new))
        (P.stops (part.old, outside.old) (part.new, outside.new))
        (edge (S.rest source.old) (S.faults source.old) (K.sent sink.old) (K.faults sink.old))
        (edge (S.rest source.new) (S.faults source.new) (K.sent sink.new) (K.faults sink.new))
        result }
{
    let last = handle(alloc, part, outside, source, sink);
    let closing = send_stop_record(alloc, last.halt, last.number, sink);
    RunEnd {
        halt: last.halt,
        closing,
    }
}

/// Ends a run of which no frame was read, since what its part works on couldn't be opened. The
/// number of the stop record is 0.
pub fn end_unopened<K: Sink>(alloc: Global, stop: PartStop, sink: &mut K) -> RunEnd
    ensures { (rest : Option (List ℕ)) (reads : ℕ)
        → IsUnopened stop (edge rest reads (K.sent sink.old) (K.faults sink.old))
        (edge rest reads (K.sent sink.new) (K.faults sink.new)) result }
{
    let halt = Halt::Answering(stop);
    let closing = send_stop_record(alloc, halt, 0, sink);
    RunEnd { halt, closing }
}
