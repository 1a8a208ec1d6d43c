ghost use Rattle.std.specs.Prelude.{◌≡◌, ◌≤◌, ◌∷◌, [], List, IfOk, OnOk, OnErr};
ghost use Rattle.esipa_codec.specs.Assistant.{IpaEvent, act_of, answered, message as came, poll};
ghost use Rattle.esipa_codec.specs.Assistant.{probe, push, restart};
ghost use Rattle.ipa_core.specs.Assistants.{IsIpa};

use crate::posts::{one_post, pending, refusal};
use esipa_codec::{Act, ToEim, ToIpa};
use iot_bytes::NoMemory;
use sgp_values::{Eid, EimId};
use small_card::Answer;
use std::alloc::Global;

/// So many failed probes in a row ask for a rollback.
const STRIKES: u8 = 3;

/// An assistant: how many probes failed in a row, counted by threes, and the manager whose package
/// went to the card and wasn't answered yet.
#[derive(Debug, Drop)]
pub struct Ipa {
    pub strikes: u8,
    pub asked: Option<EimId>,
}

impl Ipa {
    /// An assistant to which nothing happened yet. It takes no memory.
    pub fn new() -> Ipa
        ensures { IsIpa result [] }
    {
        Ipa {
            strikes: 0,
            asked: None,
        }
    }

    /// The assistant begins anew. It takes no memory.
    pub fn restart(&mut self)
        ensures { (events : List IpaEvent) → IsIpa self.old events
            → IsIpa self.new (restart ∷ events) }
    {
        *self = Ipa::new();
    }

    /// The assistant asks a manager for a package for the card with this EID.
    pub fn on_poll(&self, alloc: Global, to: EimId, eid: Eid) -> Result<Act, NoMemory>
        ensures act { (events : List IpaEvent)
            → IfOk result (λ act. act ≡ act_of events (poll to eid)) }
        ensures stays { (events : List IpaEvent) → IsIpa self.now events
            → IsIpa self.now (poll to eid ∷ events) }
    {
        Ok(Act::Send(one_post(alloc, to, ToEim::Poll { eid })?))
    }

    /// The assistant asks the card for its pending results. It takes no memory.
    pub fn on_push(&self) -> Act
        ensures act { (events : List IpaEvent) → result ≡ act_of events push }
        ensures stays { (events : List IpaEvent) → IsIpa self.now events
            → IsIpa self.now (push ∷ events) }
    {
        Act::Ask
    }

    /// A message from a manager comes; `good` is the verdict on the signature of a package. It
    /// takes no memory.
    pub fn on_message(&mut self, from: EimId, message: ToIpa, good: bool) -> Act
        ensures act { (events : List IpaEvent) → result ≡ act_of events (came from message good) }
        ensures stands { (events : List IpaEvent) → IsIpa self.old events
            → IsIpa self.new (came from message good ∷ events) }
    {
        match message {
            ToIpa::Package(bytes) => {
                self.asked = Some(from);
                Act::Load { good, bytes }
            }
            ToIpa::Nothing => Act::Rest,
            ToIpa::Ack { seq } => Act::Remove { seq },
        }
    }

    /// A probe of the connection passed or failed. It takes no memory.
    pub fn on_probe(&mut self, passed: bool) -> Act
        requires { self.old.strikes ≤ 2 }
        ensures few { self.new.strikes ≤ 2 }
        ensures act { (events : List IpaEvent) → IsIpa self.old events
            → result ≡ act_of events (probe passed) }
        ensures stands { (events : List IpaEvent) → IsIpa self.old events
            → IsIpa self.new (probe passed ∷ events) }
    {
        if passed {
            self.strikes = 0;
            return Act::Rest;
        }
        self.strikes += 1;
        if self.strikes < STRIKES {
            return Act::Rest;
        }
        self.strikes = 0;
        Act::Rollback
    }

    /// The card answers. Where memory is wanting the assistant is as before.
    pub fn on_answer(&mut self, alloc: Global, answer: Answer) -> Result<Act, NoMemory>
        ensures act { (events : List IpaEvent) → IsIpa self.old events
            → IfOk result (λ act. act ≡ act_of events (answered answer)) }
        ensures stands { (events : List IpaEvent) → IsIpa self.old events
            → OnOk result (IsIpa self.new (answered answer ∷ events)) }
        ensures err { OnErr result (self.new ≡ self.old) }
    {
        match answer {
            Answer::Loaded(_) => {
                *self = Ipa::new();
                Ok(Act::Rest)
            }
            Answer::LoadRefused(refused) => {
                let act = refusal(alloc, &self.asked, refused)?;
                self.asked = None;
                Ok(act)
            }
            Answer::Results(results) => pending(alloc, results),
            _ => Ok(Act::Rest),
        }
    }
}
