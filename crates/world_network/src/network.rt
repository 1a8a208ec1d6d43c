ghost use Rattle.std.specs.Prelude.{◌≡◌, ◌≢◌, ◌≤◌, ◌<◌, not, true, false, List, Some, None};
ghost use Rattle.std.specs.Prelude.{length};
ghost use Rattle.std.specs.Prelude.{IfOk, IfSome, OnOk, OnErr, IsErrOf};
ghost use Rattle.std.specs.Prelude.{option_copied, option_map};
ghost use Rattle.esipa_codec.specs.Assistant.{act_of, poll, probe, push, strikes};
ghost use Rattle.esipa_codec.specs.Eims.{bind_end, order_end, skip_end};
ghost use Rattle.esipa_codec.specs.Records.{records_of};
ghost use Rattle.esipa_codec.specs.Ranges.{IsToEim};
ghost use Rattle.esipa_codec.specs.declared.ends.MessageEnd.{MessageEnd};
ghost use Rattle.iot_schedule.specs.declared.types.Device.{Device};
ghost use Rattle.iot_schedule.specs.declared.types.Line.TheVariants as line;
ghost use Rattle.modem_bank.specs.Modems.{Seen};
ghost use Rattle.small_card.specs.Ranges.{IsAnswer, IsBody, IsCommand, IsNumber};
ghost use Rattle.small_card.specs.Ranges.{greatest_counter};
ghost use Rattle.small_world.specs.Acting.{command_of, hearing, told_answer};
ghost use Rattle.small_world.specs.Lines.{acted};
ghost use Rattle.small_world.specs.Network.{eim_of, gone_up, is_known, joined, picked};
ghost use Rattle.small_world.specs.Octets.{most_octets_sent, octets_sent};
ghost use Rattle.small_world.specs.Worlds.{SmallWorld, eid_of, start_world};
ghost use Rattle.world_network.specs.Managers.{IfBooked};
ghost use Rattle.world_network.specs.Networks.{IsNetwork, acting, down_act, heard_of, hearing_from};
ghost use Rattle.world_network.specs.Networks.{up_end};

use crate::mail::{Mail, SendEnd, named, reread_post, reread_reply};
use crate::managers::{self, Manager};
use esipa_codec::{Act, BindEnd, MessageEnd, OrderEnd, ToEim};
use iot_bytes::NoMemory;
use iot_schedule::Pick;
use ipa_core::Ipa;
use sgp_values::{Eid, EimId};
use small_card::{Answer, Body, PackageResult};
use std::alloc::Global;
use std::marker::Model;

/// The assistant, the eIMs and all messages between them, of the world of one card.
#[derive(Debug, Drop)]
pub struct Network {
    eid: Eid,
    ipa: Ipa,
    managers: Vec<Manager>,
    mail: Mail,
}

impl Model for Network {
    ghost use Rattle.world_network.specs.Networks.{Parts, parts_of, IsSound};

    ghost Value = { Parts };

    ghost view = { parts_of };

    ghost invariant = { IsSound };
}

impl Network {
    /// The assistant to which nothing happened yet, no eIM and no message. It takes no memory.
    pub fn new(alloc: Global, eid: Eid) -> Network
        ensures { (d : Device) (handed_in : List Seen) → d.eid ≡ eid
            → IsNetwork result (start_world d handed_in) }
    {
        Network {
            eid,
            ipa: Ipa::new(),
            managers: Vec::new(alloc),
            mail: Mail::new(alloc),
        }
    }

    /// An eIM joins, unless one of its identifier is there; tells whether it joined. Where memory
    /// is wanting nothing changes.
    pub fn join(&mut self, alloc: Global, id: EimId) -> Result<bool, NoMemory>
        ensures joined { (w : SmallWorld) → IsNetwork self.old w
            → IfOk result (λ new. new ≡ not (is_known id w.eims)) }
        ensures stands { (w : SmallWorld) → IsNetwork self.old w
            → OnOk result (IsNetwork self.new (joined id w)) }
        ensures no_memory { OnErr result (self.new ≡ self.old) }
    {
        if managers::is_there(&self.managers, &id) {
            return Ok(false);
        }
        managers::add(&mut self.managers, alloc, id, self.eid)?;
        Ok(true)
    }

    /// The eIM is bound to an association, with the last counter used with it; none where it isn't
    /// there. It takes no memory.
    pub fn bind(&mut self, id: &EimId, association: u32, last: u64) -> Option<BindEnd>
        requires association { IsNumber association }
        requires last { last ≤ greatest_counter }
        ensures end { (w : SmallWorld) → IsNetwork self.old w
            → result ≡ option_map (bind_end association last) (eim_of id.now w.eims) }
        ensures stands { (w : SmallWorld) → IsNetwork self.old w
            → IsNetwork self.new (acted (line.Bind id.now association last) false false w) }
    {
        managers::bind(&mut self.managers, id, association, last)
    }

    /// The eIM gets an order of these operations; none where it isn't there.
    pub fn order(&mut self, alloc: Global, id: &EimId, body: Body) -> Option<OrderEnd>
        requires { IsBody body }
        ensures end { (w : SmallWorld) → IsNetwork self.old w
            → IfBooked result (result ≡ option_map order_end (eim_of id.now w.eims)) }
        ensures stands { (w : SmallWorld) → IsNetwork self.old w
            → IfBooked result
            (IsNetwork self.new (acted (line.Order id.now body) false false w)) }
    {
        managers::order(&mut self.managers, alloc, id, body)
    }

    /// The eIM gives up the first order that waits, and gives its counter; none where it isn't
    /// there. It takes no memory.
    pub fn skip(&mut self, id: &EimId) -> Option<Option<u64>>
        ensures end { (w : SmallWorld) → IsNetwork self.old w
            → result ≡ option_map skip_end (eim_of id.now w.eims) }
        ensures stands { (w : SmallWorld) → IsNetwork self.old w
            → IsNetwork self.new (acted (line.Skip id.now) false false w) }
    {
        managers::skip(&mut self.managers, id)
    }

    /// The records of the eIM, in the order of first receiving; none where it isn't there. It takes
    /// no memory.
    pub fn records(&self, id: &EimId) -> Option<&[PackageResult]>
        ensures { (w : SmallWorld) → IsNetwork self.now w
            → option_copied result ≡ option_map (λ e. records_of e.received)
            (eim_of id.now w.eims) }
    {
        managers::records(&self.managers, id)
    }

    /// The assistant polls the eIM; tells whether it is there.
    pub fn poll(&mut self, alloc: Global, id: EimId) -> Result<bool, SendEnd>
        ensures known { (w : SmallWorld) → IsNetwork self.old w
            → IfOk result (λ known. known ≡ is_known id w.eims) }
        ensures stands { (w : SmallWorld) → IsNetwork self.old w
            → OnOk result (IsNetwork self.new (acted (line.Poll id) false false w)) }
        ensures limit { (w : SmallWorld) → IsNetwork self.old w
            → IsErrOf result SendEnd.Limit
            → most_octets_sent < octets_sent (acted (line.Poll id) false false w) }
    {
        if managers::is_there(&self.managers, &id) {
            self.ask(alloc, id)?;
            return Ok(true);
        }
        Ok(false)
    }

    /// The assistant asks the eIM for a package.
    fn ask(&mut self, alloc: Global, id: EimId) -> Result<(), SendEnd>
        ensures stands { (w : SmallWorld) → IsNetwork self.old w
            → OnOk result (IsNetwork self.new (acting (poll id (eid_of w)) w)) }
        ensures limit { (w : SmallWorld) → IsNetwork self.old w
            → IsErrOf result SendEnd.Limit
            → most_octets_sent < octets_sent (acting (poll id (eid_of w)) w) }
    {
        match self.ipa.on_poll(alloc, id, self.eid) {
            Ok(act) => self.mail.send_act(alloc, act),
            Err(NoMemory) => Err(SendEnd::NoMemory),
        }
    }

    /// A message reaches its eIM, which hears it and may answer; none where there is no such
    /// message, or its eIM isn't there.
    pub fn up(&mut self, alloc: Global, pick: Pick) -> Result<Option<MessageEnd>, SendEnd>
        ensures end { (w : SmallWorld) → IsNetwork self.old w
            → IfOk result (λ end. end ≡ up_end w pick) }
        ensures stands { (w : SmallWorld) → IsNetwork self.old w
            → OnOk result (IsNetwork self.new (acted (line.Up pick) false false w)) }
        ensures served { IfOk result (λ end. end ≢ Some MessageEnd.NoMemory) }
        ensures limit { (w : SmallWorld) → IsNetwork self.old w
            → IsErrOf result SendEnd.Limit
            → most_octets_sent < octets_sent (acted (line.Up pick) false false w) }
    {
        match named(self.mail.to_eims.as_slice(), pick) {
            Some(letter) => {
                let to = letter.peer;
                match reread_post(alloc, letter.octets.as_slice()) {
                    Ok(message) => self.hear(alloc, to, message),
                    Err(NoMemory) => Err(SendEnd::NoMemory),
                }
            }
            None => Ok(None),
        }
    }

    /// A message reaches the assistant, with the verdict on a package; gives what it does next, or
    /// none where there is no such message.
    pub fn down(&mut self, alloc: Global, pick: Pick, good: bool) -> Result<Option<Act>, NoMemory>
        ensures act { (w : SmallWorld) → IsNetwork self.old w
            → IfOk result (λ act. act ≡ down_act w good (picked pick w.to_ipa)) }
        ensures stands { (w : SmallWorld) → IsNetwork self.old w
            → OnOk result (IsNetwork self.new (hearing_from good (picked pick w.to_ipa) w)) }
        ensures range { IfOk result (λ act. IfSome act (λ a. IfSome (command_of a) IsCommand)) }
    {
        match named(self.mail.to_ipa.as_slice(), pick) {
            Some(letter) => {
                let from = letter.peer;
                let message = reread_reply(alloc, letter.octets.as_slice())?;
                Ok(Some(self.ipa.on_message(from, message, good)))
            }
            None => Ok(None),
        }
    }

    /// The assistant wishes for the pending results. It takes no memory.
    pub fn push(&mut self) -> Act
        ensures act { (w : SmallWorld) → IsNetwork self.old w → result ≡ act_of w.assistant push }
        ensures stands { (w : SmallWorld) → IsNetwork self.old w
            → IsNetwork self.new (hearing push w) }
    {
        self.ipa.on_push()
    }

    /// The assistant hears whether a probe passed. It takes no memory.
    pub fn probe(&mut self, passed: bool) -> Act
        ensures act { (w : SmallWorld) → IsNetwork self.old w
            → result ≡ act_of w.assistant (probe passed) }
        ensures stands { (w : SmallWorld) → IsNetwork self.old w
            → IsNetwork self.new (hearing (probe passed) w) }
    {
        self.ipa.on_probe(passed)
    }

    /// How many probes failed in a row, counted by threes.
    pub fn strikes(&self) -> u8
        ensures { (w : SmallWorld) → IsNetwork self.now w → result ≡ strikes w.assistant }
    {
        self.ipa.strikes
    }

    /// The assistant begins anew. It takes no memory.
    pub fn restart(&mut self)
        ensures { (w : SmallWorld) → IsNetwork self.old w
            → IsNetwork self.new (acted line.Restart false false w) }
    {
        self.ipa.restart();
    }

    /// The card's answer reaches the assistant, which may send messages for it.
    pub fn answered(&mut self, alloc: Global, answer: Answer) -> Result<(), SendEnd>
        requires { IsAnswer answer }
        ensures stands { (w : SmallWorld) → IsNetwork self.old w
            → OnOk result (IsNetwork self.new (told_answer answer w)) }
        ensures limit { (w : SmallWorld) → IsNetwork self.old w
            → IsErrOf result SendEnd.Limit
            → most_octets_sent < octets_sent (told_answer answer w) }
    {
        match self.ipa.on_answer(alloc, answer) {
            Ok(act) => self.mail.send_act(alloc, act),
            Err(NoMemory) => Err(SendEnd::NoMemory),
        }
    }

    /// How many messages were sent to eIMs.
    pub fn sent(&self) -> usize
        ensures { (w : SmallWorld) → IsNetwork self.now w → result ≡ length w.to_eims }
    {
        self.mail.to_eims.len()
    }

    /// How many messages were sent to the assistant.
    pub fn replied(&self) -> usize
        ensures { (w : SmallWorld) → IsNetwork self.now w → result ≡ length w.to_ipa }
    {
        self.mail.to_ipa.len()
    }

    /// The eIM of this identifier hears a message, and what it answers is sent to the assistant.
    fn hear(
        &mut self,
        alloc: Global,
        to: EimId,
        message: ToEim,
    ) -> Result<Option<MessageEnd>, SendEnd>
        requires { IsToEim message }
        ensures end { (w : SmallWorld) → IsNetwork self.old w
            → IfOk result (λ end. end ≡ heard_of
            (Some (record { to = to; message = message })) w.eims) }
        ensures stands { (w : SmallWorld) → IsNetwork self.old w
            → OnOk result (IsNetwork self.new
            (gone_up (Some (record { to = to; message = message })) w)) }
        ensures served { IfOk result (λ end. end ≢ Some MessageEnd.NoMemory) }
        ensures limit { (w : SmallWorld) → IsNetwork self.old w
            → IsErrOf result SendEnd.Limit → most_octets_sent
            < octets_sent (gone_up (Some (record { to = to; message = message })) w) }
    {
        match managers::hear(&mut self.managers, alloc, &to, message) {
            Ok(said) => {
                self.mail.send_said(alloc, to, &said)?;
                Ok(said)
            }
            Err(NoMemory) => Err(SendEnd::NoMemory),
        }
    }
}
