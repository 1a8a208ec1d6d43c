//! A manager that answers frames.

ghost use Rattle.std.specs.Prelude.{◌≡◌, ◌≢◌, IfOk, IfErr, MatchResult};
ghost use Rattle.esipa_codec.specs.Eims.{EimState, new_eim};
ghost use Rattle.esipa_codec.specs.declared.ends.OrderEnd.{OrderEnd};
ghost use Rattle.esipa_codec.specs.declared.ends.MessageEnd.{MessageEnd};
ghost use Rattle.eim_queue.specs.Queues.{IsEim};
ghost use Rattle.part_records.specs.Ranges.{IsEimInput, IsEimOutput};
ghost use Rattle.lone_parts.specs.Eims.{Gave, Replied, of_bind, of_order, of_skip, of_message};

use crate::unread::unread;
use eim_queue::Eim;
use esipa_codec::{BindEnd, MessageEnd, OrderEnd};
use iot_bytes::{NoMemory, Row};
use part_records::{EimInput, EimOutput, EimRefusal, read_eim_input, write_eim_output};
use run_loop::{Part, PartStop};
use sgp_values::{Eid, EimId};
use std::alloc::Global;

/// A manager for the card with one EID, which answers frames.
#[derive(Drop)]
pub struct EimPart {
    eim: Eim,
}

impl EimPart {
    /// A manager that isn't bound, without orders and records. It takes no memory.
    pub fn new(alloc: Global, id: EimId, eid: Eid) -> EimPart
        ensures { IsEim result.eim (new_eim id eid) }
    {
        EimPart {
            eim: Eim::new(alloc, id, eid),
        }
    }
}

fn bound(end: BindEnd) -> EimOutput
    ensures { result ≡ of_bind end }
{
    match end {
        BindEnd::Bound => EimOutput::Bound,
        BindEnd::Low(_) => EimOutput::Refused(EimRefusal::BindLow),
    }
}

#[tactic(auto, unfolding(part_records::specs::Ranges::IsEimOutput))]
fn ordered(end: OrderEnd) -> Result<EimOutput, PartStop>
    ensures given { MatchResult result (λ output. (output ≡ of_order end)
        × (end ≢ OrderEnd.NoMemory))
        (λ stop. stop ≡ PartStop.NoMemory) }
    ensures range { IfOk result IsEimOutput }
{
    match end {
        OrderEnd::Ordered(counter) => Ok(EimOutput::Ordered { counter }),
        OrderEnd::Unbound => Ok(EimOutput::Refused(EimRefusal::Unbound)),
        OrderEnd::CounterSpent => Ok(EimOutput::Refused(EimRefusal::CounterSpent)),
        OrderEnd::NoMemory => Err(PartStop::NoMemory),
    }
}

#[tactic(auto, unfolding(part_records::specs::Ranges::IsEimOutput))]
fn skipped(counter: Option<u64>) -> EimOutput
    ensures given { result ≡ of_skip counter }
    ensures range { IsEimOutput result }
{
    match counter {
        Some(counter) => EimOutput::Skipped { counter },
        None => EimOutput::Refused(EimRefusal::NoneWaiting),
    }
}

fn answered(end: MessageEnd) -> Result<EimOutput, PartStop>
    ensures { MatchResult result (λ output. (output ≡ of_message end) × (end ≢ MessageEnd.NoMemory))
        (λ stop. stop ≡ PartStop.NoMemory) }
{
    match end {
        MessageEnd::Reply(message) => Ok(EimOutput::Reply(message)),
        MessageEnd::Silent => Ok(EimOutput::Silent),
        MessageEnd::NoMemory => Err(PartStop::NoMemory),
    }
}

// What a manager gives for an input.
fn respond(alloc: Global, eim: &mut Eim, input: EimInput) -> Result<EimOutput, PartStop>
    requires { IsEimInput input }
    ensures gave { (e : EimState) → IsEim eim.old e
        → IfOk result (λ output. Gave e input eim.new output) }
    ensures range { IfOk result IsEimOutput }
    ensures stop { IfErr result (λ stop. stop ≡ PartStop.NoMemory) }
{
    match input {
        EimInput::Bind { association, last } => Ok(bound(eim.bind(association, last))),
        EimInput::Order(body) => ordered(eim.order(alloc, body)),
        EimInput::Skip => Ok(skipped(eim.skip())),
        EimInput::Message(message) => answered(eim.on_message(alloc, message)),
    }
}

// What a manager gives for a frame, or why nothing.
fn reply(alloc: Global, eim: &mut Eim, octets: &[u8]) -> Result<EimOutput, PartStop>
    ensures replied { (e : EimState) → IsEim eim.old e → Replied e octets.now eim.new result }
    ensures range { IfOk result IsEimOutput }
{
    match read_eim_input(alloc, octets) {
        Ok(input) => respond(alloc, eim, input),
        Err(error) => Err(unread(error)),
    }
}

impl Part<()> for EimPart {
    ghost use Rattle.lone_parts.specs.Eims.{LedTo, StoppedAt};
    ghost use Rattle.lone_parts.specs.Starting.{eim_led_nowhere};

    ghost behind = { λ first now fs text. LedTo first.0.eim now.0.eim fs text };

    ghost stops = { λ first now fs text f stop. StoppedAt first.0.eim fs text f stop };

    fn answer(
        &mut self,
        alloc: Global,
        _outside: &mut (),
        octets: &[u8],
        out: &mut Row<u8>,
    ) -> Result<(), PartStop> {
        match reply(alloc, &mut self.eim, octets) {
            Ok(output) => match write_eim_output(&output, out) {
                Ok(()) => Ok(()),
                Err(NoMemory) => Err(PartStop::NoMemory),
            },
            Err(stop) => Err(stop),
        }
    }

    ghost begins = { λ first. eim_led_nowhere first.0.eim };
}
