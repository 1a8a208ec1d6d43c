//! The form `gen`: a schedule by the generator.

ghost use Rattle.std.specs.Prelude.{◌≡◌, ◌<◌, ◌≤◌, ◌^◌, ◌+◌, ◌⊎◌, ◌++◌, ℕ, List, Option, OnOk, Err};
ghost use Rattle.iot_bytes.specs.Causes.{Rose};
ghost use Rattle.iot_schedule.specs.Making.{made_line, state_before};
ghost use Rattle.line_loop.specs.Lines.{ended};
ghost use Rattle.schedule_forms.specs.Pieces.{InPieces, Passed, Flushed, MadeOne, Generated};
ghost use Rattle.schedule_forms.specs.Pieces.{HasGenerated, gen_status};

use iot_bytes::{NoMemory, Row, Sink, send};
use iot_schedule::Maker;
use run_loop::SendStop;
use std::alloc::Global;

/// How many octets of lines are gathered before they are sent.
const PIECE: usize = 8_192;

// Appends the line of a number, with its end.
fn put_line(maker: &mut Maker, number: u32, out: &mut Row<u8>) -> Result<(), NoMemory>
    ensures { (start : ℕ) → maker.old.state ≡ state_before start number → OnOk result (
        (out.new ≡ out.old ++ ended (made_line start number))
        × (maker.new.state ≡ state_before start (number + 1))) }
{
    maker.next_line(number, out)?;
    out.append(b"\n")
}

// Sends the lines that are made and not yet sent.
fn send_all<K: Sink>(out: &mut Row<u8>, sink: &mut K) -> Result<(), SendStop>
    ensures flushed { (sent0 : Option (List ℕ)) (start count : ℕ)
        → InPieces start count sent0 (K.sent sink.old) out.old
        → Flushed start count sent0 (K.sent sink.new) out.new result }
    ensures fault { result ≡ Err SendStop.Fault → Rose (K.faults sink.old) (K.faults sink.new) }
    ensures monotone { K.faults sink.old ≤ K.faults sink.new }
{
    match send(sink, out.as_slice()) {
        Ok(()) => {
            out.cut(0);
            Ok(())
        }
        Err(_) => Err(SendStop::Fault),
    }
}

// Sends them where there are enough.
fn send_piece<K: Sink>(out: &mut Row<u8>, sink: &mut K) -> Result<(), SendStop>
    ensures passed { (sent0 : Option (List ℕ)) (start count : ℕ)
        → InPieces start count sent0 (K.sent sink.old) out.old
        → Passed start count sent0 (K.sent sink.new) out.new result }
    ensures fault { result ≡ Err SendStop.Fault → Rose (K.faults sink.old) (K.faults sink.new) }
    ensures monotone { K.faults sink.old ≤ K.faults sink.new }
{
    if out.len() < PIECE {
        return Ok(());
    }
    send_all(out, sink)
}

// Makes the line of a number.
fn generate_line<K: Sink>(
    maker: &mut Maker,
    number: u32,
    out: &mut Row<u8>,
    sink: &mut K,
) -> Result<(), SendStop>
    ensures made { (sent0 : Option (List ℕ)) (start count : ℕ) → number ≡ count + 1
        → maker.old.state ≡ state_before start number
        → InPieces start count sent0 (K.sent sink.old) out.old
        → MadeOne start count sent0 (K.sent sink.new) out.new maker.new.state result }
    ensures fault { result ≡ Err SendStop.Fault → Rose (K.faults sink.old) (K.faults sink.new) }
    ensures monotone { K.faults sink.old ≤ K.faults sink.new }
{
    if put_line(maker, number, out).is_err() {
        return Err(SendStop::NoMemory);
    }
    send_piece(out, sink)
}

// Makes the lines, and sends them.
fn generate<K: Sink>(alloc: Global, start: u32, lines: u32, sink: &mut K) -> Result<(), SendStop>
    requires { start < 2 ^ 31 }
    ensures generated { Generated start lines (K.sent sink.old) (K.sent sink.new) result }
    ensures fault { result ≡ Err SendStop.Fault → Rose (K.faults sink.old) (K.faults sink.new) }
    ensures monotone { K.faults sink.old ≤ K.faults sink.new }
{
    let mut maker = Maker::new(start);
    let mut out = Row::new(alloc);
    for made in 0..lines {
        generate_line(&mut maker, made + 1, &mut out, sink)?;
    }
    send_all(&mut out, sink)
}

fn status_of(end: Result<(), SendStop>) -> u8
    ensures { result ≡ gen_status end }
{
    match end {
        Ok(()) => 0,
        Err(SendStop::Fault) => 3,
        Err(SendStop::NoMemory) => 6,
    }
}

/// Sends the schedule of so many lines that the generator makes from a start, as it makes it, and
/// gives the exit status.
pub fn run_gen<K: Sink>(alloc: Global, start: u32, lines: u32, sink: &mut K) -> u8
    requires { start < 2 ^ 31 }
    // With status 0 the schedule was sent, with 3 all of it but its end, with 6 its first lines.
    ensures generated { HasGenerated start lines result (K.sent sink.old) (K.sent sink.new) }
    ensures statuses { (result ≡ 0) ⊎ ((result ≡ 3) ⊎ (result ≡ 6)) }
    // Status 3 comes only where a call on the sink failed.
    ensures fault { result ≡ 3 → Rose (K.faults sink.old) (K.faults sink.new) }
    ensures monotone { K.faults sink.old ≤ K.faults sink.new }
    // Where none fails and memory suffices, the status is 0.
    ensures complete { ¬ Rose (K.faults sink.old) (K.faults sink.new)
        → (result ≡ 0) ⊎ (result ≡ 6) }
{
    status_of(generate(alloc, start, lines, sink))
}
