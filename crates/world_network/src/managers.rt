//! The eIMs of a world, found by their identifiers.
ghost use Rattle.std.specs.Prelude.{◌≡◌, ◌≢◌, ◌≤◌, ◌++◌, [], ◌∷◌, List, Some, None, option_map};
ghost use Rattle.std.specs.Prelude.{position, OnOk, OnErr, IfOk, IfSome, MatchResult};
ghost use Rattle.std.specs.Prelude.{option_copied};
ghost use Rattle.std.specs.List.{list_any};
ghost use Rattle.small_card.specs.Ranges.{IsBody, IsNumber, greatest_counter};
ghost use Rattle.esipa_codec.specs.Eims.{EimState, bind_end, bound_to, heard, message_end};
ghost use Rattle.esipa_codec.specs.Eims.{new_eim, order_end, ordered, skip_end, skipped};
ghost use Rattle.esipa_codec.specs.Ranges.{IsToEim};
ghost use Rattle.esipa_codec.specs.Records.{records_of};
ghost use Rattle.eim_queue.specs.Queues.{IsSendable};
ghost use Rattle.esipa_codec.specs.declared.ends.MessageEnd.{MessageEnd};
ghost use Rattle.small_world.specs.Lossless.{AreApart};
ghost use Rattle.small_world.specs.Network.{at_eim, eim_of};
ghost use Rattle.world_network.specs.Managers.{AreManagers, has_id, IfBooked};

use eim_queue::Eim;
use esipa_codec::{BindEnd, MessageEnd, OrderEnd, ToEim};
use iot_bytes::NoMemory;
use sgp_values::{Eid, EimId};
use small_card::{Body, PackageResult};
use std::alloc::Global;

/// An eIM: the identifier that it is found by, and its queue.
#[derive(Debug, Drop)]
pub struct Manager {
    pub id: EimId,
    pub queue: Eim,
}

/// The place of the first eIM of this identifier.
fn place(managers: &[Manager], id: &EimId) -> Option<usize>
    ensures { result ≡ position (has_id id.now) managers.now }
{
    managers.iter().position(|manager| *id == manager.id)
}

/// Whether an eIM of this identifier is there.
pub(crate) fn is_there(managers: &[Manager], id: &EimId) -> bool
    ensures { result ≡ list_any (has_id id.now) managers.now }
{
    managers.iter().any(|manager| *id == manager.id)
}

/// A new eIM goes last.
pub(crate) fn add(
    managers: &mut Vec<Manager>,
    alloc: Global,
    id: EimId,
    eid: Eid,
) -> Result<(), NoMemory>
    ensures ok { (es : List EimState) → AreManagers managers.old.items es
        → OnOk result (AreManagers managers.new.items (es ++ new_eim id eid ∷ [])) }
    ensures err { OnErr result (managers.new.items ≡ managers.old.items) }
{
    let manager = Manager {
        id,
        queue: Eim::new(alloc, id, eid),
    };
    push(managers, manager)
}

fn push(managers: &mut Vec<Manager>, manager: Manager) -> Result<(), NoMemory>
    ensures ok { OnOk result (managers.new.items ≡ managers.old.items ++ manager ∷ []) }
    ensures err { OnErr result (managers.new.items ≡ managers.old.items) }
{
    managers.push(manager).map_err(|_| NoMemory)
}

/// The eIM of this identifier is bound to an association, with its last counter.
pub(crate) fn bind(
    managers: &mut Vec<Manager>,
    id: &EimId,
    association: u32,
    last: u64,
) -> Option<BindEnd>
    requires association { IsNumber association }
    requires last { last ≤ greatest_counter }
    ensures end { (es : List EimState) → AreManagers managers.old.items es
        → result ≡ option_map (bind_end association last) (eim_of id.now es) }
    ensures stands { (es : List EimState) → AreManagers managers.old.items es → AreApart es
        → AreManagers managers.new.items (at_eim id.now (bound_to association last) es) }
{
    match place(managers, id) {
        Some(at) => Some(managers[at].queue.bind(association, last)),
        None => None,
    }
}

/// The eIM of this identifier gets an order of these operations.
pub(crate) fn order(
    managers: &mut Vec<Manager>,
    alloc: Global,
    id: &EimId,
    body: Body,
) -> Option<OrderEnd>
    requires { IsBody body }
    ensures end { (es : List EimState) → AreManagers managers.old.items es
        → IfBooked result (result ≡ option_map order_end (eim_of id.now es)) }
    ensures stands { (es : List EimState) → AreManagers managers.old.items es → AreApart es
        → IfBooked result (AreManagers managers.new.items (at_eim id.now (ordered body) es)) }
{
    match place(managers, id) {
        Some(at) => Some(managers[at].queue.order(alloc, body)),
        None => None,
    }
}

/// The eIM of this identifier gives up the first order that waits.
pub(crate) fn skip(managers: &mut Vec<Manager>, id: &EimId) -> Option<Option<u64>>
    ensures end { (es : List EimState) → AreManagers managers.old.items es
        → result ≡ option_map skip_end (eim_of id.now es) }
    ensures stands { (es : List EimState) → AreManagers managers.old.items es → AreApart es
        → AreManagers managers.new.items (at_eim id.now skipped es) }
{
    match place(managers, id) {
        Some(at) => Some(managers[at].queue.skip()),
        None => None,
    }
}

/// The eIM of this identifier hears a message.
pub(crate) fn hear(
    managers: &mut Vec<Manager>,
    alloc: Global,
    id: &EimId,
    message: ToEim,
) -> Result<Option<MessageEnd>, NoMemory>
    ensures end { (es : List EimState) → AreManagers managers.old.items es
        → IfOk result (λ end. end ≡ option_map (message_end message) (eim_of id.now es)) }
    ensures stands { (es : List EimState) → AreManagers managers.old.items es → AreApart es
        → OnOk result (AreManagers managers.new.items (at_eim id.now (heard message) es)) }
    ensures served { IfOk result (λ end. end ≢ Some MessageEnd.NoMemory) }
    ensures range { IsToEim message → IfOk result (λ end. IfSome end IsSendable) }
{
    match place(managers, id) {
        Some(at) => served(managers[at].queue.on_message(alloc, message)),
        None => Ok(None),
    }
}

/// What an eIM said, unless memory was wanting.
fn served(end: MessageEnd) -> Result<Option<MessageEnd>, NoMemory>
    ensures { MatchResult result (λ said. (said ≡ Some end) × (end ≢ MessageEnd.NoMemory))
        (λ _. end ≡ MessageEnd.NoMemory) }
{
    match end {
        MessageEnd::NoMemory => Err(NoMemory),
        _ => Ok(Some(end)),
    }
}

/// The records of the eIM of this identifier.
pub(crate) fn records<'a>(managers: &'a [Manager], id: &EimId) -> Option<&'a [PackageResult]>
    ensures { (es : List EimState) → AreManagers managers.now es
        → option_copied result ≡ option_map (λ e. records_of e.received) (eim_of id.now es) }
{
    match place(managers, id) {
        Some(at) => Some(managers[at].queue.records()),
        None => None,
    }
}
