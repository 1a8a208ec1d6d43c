//! An assistant that answers frames.

ghost use Rattle.std.specs.Prelude.{◌≡◌, List, [], IfOk, IfErr};
ghost use Rattle.sgp_values.specs.Eids.{IsEid};
ghost use Rattle.esipa_codec.specs.Assistant.{IpaEvent, answered as came, poll, restart};
ghost use Rattle.ipa_core.specs.Assistants.{IsIpa};
ghost use Rattle.part_records.specs.Ranges.{AreDeeds};
ghost use Rattle.lone_parts.specs.Ipas.{Did, IsFit, IsSome, Replied, deeds_of, event_of};

use crate::unread::unread;
use esipa_codec::Act;
use iot_bytes::{NoMemory, Row};
use ipa_core::Ipa;
use part_records::{Deeds, IpaInput, read_ipa_input, write_deeds};
use run_loop::{Part, PartStop};
use sgp_values::{Eid, EimId};
use small_card::{Answer, Command};
use std::alloc::Global;
use std::marker::Model;

/// An assistant, which answers frames and polls for the card with one EID.
#[derive(Drop)]
pub struct IpaPart {
    ipa: Ipa,
    eid: Eid,
}

impl Model for IpaPart {
    ghost use Rattle.lone_parts.specs.Ipas.{Alone, alone, IsSound};

    ghost Value = { Alone };

    ghost view = { alone };

    ghost invariant = { IsSound };
}

impl IpaPart {
    /// An assistant to which nothing happened yet. It takes no memory.
    pub fn new(eid: Eid) -> IpaPart
        ensures ipa { IsIpa result.ipa [] }
        ensures eid { result.eid ≡ eid }
    {
        IpaPart {
            ipa: Ipa::new(),
            eid,
        }
    }
}

// What the assistant does, as a record. The package of a Load isn't copied.
fn deeds(act: Act) -> Deeds
    ensures { result ≡ deeds_of act }
{
    match act {
        Act::Load { good, bytes } => Deeds::ToCard(Command::Load { good, bytes }),
        Act::Remove { seq } => Deeds::ToCard(Command::Remove { seq }),
        Act::Rollback => Deeds::ToCard(Command::Rollback),
        Act::Ask => Deeds::ToCard(Command::Results),
        Act::Send(posts) => Deeds::ToEims(posts),
        Act::Rest => Deeds::Nothing,
    }
}

fn restarted(ipa: &mut Ipa) -> Act
    ensures { (events : List IpaEvent) → IsIpa ipa.old events
        → Did events restart ipa.new result }
{
    ipa.restart();
    Act::Rest
}

fn polled(alloc: Global, ipa: &Ipa, to: EimId, eid: Eid) -> Result<Act, PartStop>
    ensures did { (events : List IpaEvent) → IsIpa ipa.now events
        → IfOk result (λ act. Did events (poll to eid) ipa.now act) }
    ensures stop { IfErr result (λ stop. stop ≡ PartStop.NoMemory) }
{
    match ipa.on_poll(alloc, to, eid) {
        Ok(act) => Ok(act),
        Err(NoMemory) => Err(PartStop::NoMemory),
    }
}

fn answered(alloc: Global, ipa: &mut Ipa, answer: Answer) -> Result<Act, PartStop>
    ensures did { (events : List IpaEvent) → IsIpa ipa.old events
        → IfOk result (λ act. Did events (came answer) ipa.new act) }
    ensures stop { IfErr result (λ stop. (stop ≡ PartStop.NoMemory) × (ipa.new ≡ ipa.old)) }
{
    match ipa.on_answer(alloc, answer) {
        Ok(act) => Ok(act),
        Err(NoMemory) => Err(PartStop::NoMemory),
    }
}

// What the assistant does for an input.
fn respond(alloc: Global, ipa: &mut Ipa, eid: Eid, input: IpaInput) -> Result<Act, PartStop>
    requires { IsSome ipa.old }
    ensures did { (events : List IpaEvent) → IsIpa ipa.old events
        → IfOk result (λ act. Did events (event_of eid input) ipa.new act) }
    ensures stop { IfErr result (λ stop. (stop ≡ PartStop.NoMemory) × (ipa.new ≡ ipa.old)) }
{
    match input {
        IpaInput::Message {
            from,
            good,
            message,
        } => Ok(ipa.on_message(from, message, good)),
        IpaInput::Probe(passed) => Ok(ipa.on_probe(passed)),
        IpaInput::Restart => Ok(restarted(ipa)),
        IpaInput::Push => Ok(ipa.on_push()),
        IpaInput::Answered(answer) => answered(alloc, ipa, answer),
        IpaInput::Poll(to) => polled(alloc, ipa, to, eid),
    }
}

// What the assistant does for a frame, or why nothing.
fn reply(alloc: Global, ipa: &mut Ipa, eid: Eid, octets: &[u8]) -> Result<Deeds, PartStop>
    requires some { IsFit ipa.old }
    requires eid { IsEid eid }
    ensures replied { (events : List IpaEvent) → IsIpa ipa.old events
        → Replied eid events octets.now ipa.new result }
    ensures some { IsFit ipa.new }
    ensures range { IfOk result AreDeeds }
{
    match read_ipa_input(alloc, octets) {
        Ok(input) => match respond(alloc, ipa, eid, input) {
            Ok(act) => Ok(deeds(act)),
            Err(stop) => Err(stop),
        },
        Err(error) => Err(unread(error)),
    }
}

impl Part<()> for IpaPart {
    ghost use Rattle.lone_parts.specs.Ipas.{LedTo, StoppedAt};
    ghost use Rattle.lone_parts.specs.Starting.{ipa_led_nowhere};

    ghost behind = { λ first now fs text. LedTo first.0 now.0 fs text };

    ghost stops = { λ first now fs text f stop. StoppedAt first.0 fs text f stop };

    fn answer(
        &mut self,
        alloc: Global,
        _outside: &mut (),
        octets: &[u8],
        out: &mut Row<u8>,
    ) -> Result<(), PartStop> {
        match reply(alloc, &mut self.ipa, self.eid, octets) {
            Ok(deeds) => match write_deeds(&deeds, out) {
                Ok(()) => Ok(()),
                Err(NoMemory) => Err(PartStop::NoMemory),
            },
            Err(stop) => Err(stop),
        }
    }

    ghost begins = { λ first. ipa_led_nowhere first.0 };
}
