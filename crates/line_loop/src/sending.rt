//! Sending the stop line.

ghost use Rattle.std.specs.Prelude.{◌≡◌, ◌≤◌, IfOk, Err};
ghost use Rattle.iot_bytes.specs.Causes.{Rose};
ghost use Rattle.run_loop.specs.Sends.{Closes};
ghost use Rattle.line_loop.specs.Sends.{stop_line};
ghost use Rattle.line_loop.specs.Status.{halt_status, has_stop_line};

use crate::halt::Halt;
use iot_bytes::{NoMemory, Row, Sink, put_decimal};
use run_loop::{SendStop, send_last};
use std::alloc::Global;

// The stop line, with its end.
#[tactic(auto, unfolding(crate::specs::Sends::stop_line))]
fn stop_line(alloc: Global, status: u8, number: u64) -> Result<Row<u8>, NoMemory>
    ensures { IfOk result (λ out. out ≡ stop_line status number) }
{
    let mut out = Row::new(alloc);
    out.append(b"stopped ")?;
    put_decimal(&mut out, u64::from(status))?;
    out.append(b" ")?;
    put_decimal(&mut out, number)?;
    out.append(b"\n")?;
    Ok(out)
}

/// Sends the stop line with this number, where the reason has one.
pub fn send_stop_line<K: Sink>(
    alloc: Global,
    halt: Halt,
    number: u64,
    sink: &mut K,
) -> Result<(), SendStop>
    ensures closes { Closes (has_stop_line halt) (K.sent sink.old) (K.sent sink.new)
        (stop_line (halt_status halt) number) result }
    ensures fault { result ≡ Err SendStop.Fault → Rose (K.faults sink.old) (K.faults sink.new) }
    ensures monotone { K.faults sink.old ≤ K.faults sink.new }
{
    if !halt.has_stop_line() {
        return Ok(());
    }
    let Ok(text) = stop_line(alloc, halt.status(), number) else {
        return Err(SendStop::NoMemory);
    };
    send_last(text.as_slice(), sink)
}
