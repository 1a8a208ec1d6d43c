//! Sending octets: those of answers, and the last ones of a run.

ghost use Rattle.std.specs.Prelude.{◌≡◌, ◌≤◌, IfOk, OnErr, Err};
ghost use Rattle.iot_bytes.specs.Causes.{Rose};
ghost use Rattle.iot_bytes.specs.Frames.{frame};
ghost use Rattle.es10_codec.specs.Spelling.{stopped};
ghost use Rattle.run_loop.specs.Sends.{Sent, SentLast, Closes};
ghost use Rattle.run_loop.specs.Status.{halt_status, has_record};

use crate::halt::{Halt, SendStop};
use es10_codec::write_stopped;
use iot_bytes::{Failed, NoMemory, Row, Sink, begin_frame, end_frame, send};
use std::alloc::Global;

/// Sends octets: the frame of an answer, or the text of a line.
pub fn send_octets<K: Sink>(octets: &[u8], sink: &mut K) -> Result<(), Failed>
    ensures sent { Sent (K.sent sink.old) (K.sent sink.new) octets.now result }
    ensures fault { OnErr result (Rose (K.faults sink.old) (K.faults sink.new)) }
    ensures monotone { K.faults sink.old ≤ K.faults sink.new }
{
    match send(sink, octets) {
        Ok(()) => Ok(()),
        Err(_) => Err(Failed),
    }
}

/// Sends the last octets of a run.
pub fn send_last<K: Sink>(octets: &[u8], sink: &mut K) -> Result<(), SendStop>
    ensures sent { SentLast (K.sent sink.old) (K.sent sink.new) octets.now result }
    ensures fault { result ≡ Err SendStop.Fault → Rose (K.faults sink.old) (K.faults sink.new) }
    ensures monotone { K.faults sink.old ≤ K.faults sink.new }
{
    match send_octets(octets, sink) {
        Ok(()) => Ok(()),
        Err(Failed) => Err(SendStop::Fault),
    }
}

// The frame of the stop record.
fn stop_frame(alloc: Global, status: u8, number: u64) -> Result<Row<u8>, NoMemory>
    ensures { IfOk result (λ out. out ≡ frame (stopped status number)) }
{
    let mut out = Row::new(alloc);
    begin_frame(&mut out)?;
    write_stopped(status, number, &mut out)?;
    end_frame(&mut out);
    Ok(out)
}

/// Sends the frame of the stop record with this number, where the reason has one.
pub fn send_stop_record<K: Sink>(
    alloc: Global,
    halt: Halt,
    number: u64,
    sink: &mut K,
) -> Result<(), SendStop>
    ensures closes { Closes (has_record halt) (K.sent sink.old) (K.sent sink.new)
        (frame (stopped (halt_status halt) number)) result }
    ensures fault { result ≡ Err SendStop.Fault → Rose (K.faults sink.old) (K.faults sink.new) }
    ensures monotone { K.faults sink.old ≤ K.faults sink.new }
{
    if !halt.has_record() {
        return Ok(());
    }
    let Ok(octets) = stop_frame(alloc, halt.status(), number) else {
        return Err(SendStop::NoMemory);
    };
    send_last(octets.as_slice(), sink)
}
