ghost use Rattle.std.specs.Prelude.{◌≡◌, [], ◌∷◌, not, Some, IfOk};
ghost use Rattle.sgp_values.specs.Ranges.{IsEimId, IsAddress, IsKey};
ghost use Rattle.small_card.specs.EimOperations.{is_empty_list};
ghost use Rattle.small_card.specs.Histories.{unless_ended};
ghost use Rattle.small_card.specs.Units.{remove as removal};
ghost use Rattle.small_card.specs.Valid.{IsValid};
ghost use Rattle.small_card.specs.declared.types.Command.TheVariants as command;
ghost use Rattle.home_codec.specs.FullCards.{full_card};
ghost use Rattle.card_steps.specs.Steps.{Turns};

use crate::turns::Turn;
use eim_table::{AddEnd, Eims};
use home_codec::Card;
use iot_bytes::NoMemory;
use rollback_unit::{permitted, roll};
use sgp_values::{Address, EimId, Key};
use small_card::codes::initial::{EIM_THERE, NO_ASSOCIATION_LEFT};
use small_card::{Answer, Armed};
use std::alloc::Global;

// Rolls back to what is armed.
fn roll_back_to(alloc: Global, card: &Card, armed: Armed) -> Result<Turn, NoMemory>
    requires armed { card.now.armed ≡ Some armed }
    requires valid { IsValid (full_card card.now) }
    ensures turns { IfOk result (λ end. Turns command.Rollback (full_card card.now) end) }
{
    let profiles = card.profiles.copy(alloc)?;
    let eims = card.eims.copy(alloc)?;
    let store = card.store.copy(alloc)?;
    let rolled = roll(profiles, store, armed);
    let next = Card {
        eid: card.eid,
        profiles: rolled.table,
        eims,
        store: rolled.store,
        armed: None,
    };
    Ok(Turn::Changed(next, Answer::RolledBack { seq: rolled.seq }))
}

/// Answers a rollback: it is permitted where one is armed.
pub(crate) fn roll_back(alloc: Global, card: &Card) -> Result<Turn, NoMemory>
    requires valid { IsValid (full_card card.now) }
    ensures turns { IfOk result (λ end. Turns command.Rollback (full_card card.now) end) }
{
    match permitted(&card.armed).copied() {
        Some(armed) => roll_back_to(alloc, card, armed),
        None => Ok(Turn::Same(Answer::NotPermitted)),
    }
}

// What stays armed where the result with this number leaves.
#[tactic(auto, unfolding(small_card::specs::Histories::unless_ended, small_card::specs::Histories::ends))]
fn armed_without(armed: Option<Armed>, seq: u32) -> Option<Armed>
    ensures armed { result ≡ unless_ended (removal seq ∷ []) armed }
{
    match armed {
        Some(kept) => { if seq == kept.seq { None } else { Some(kept) } }
        None => None,
    }
}

/// Answers the removal of a result, as its eIM has recorded it.
pub(crate) fn remove(alloc: Global, card: &Card, seq: u32) -> Result<Turn, NoMemory>
    ensures turns { IfOk result (λ end. Turns (command.Remove seq) (full_card card.now) end) }
{
    if card.store.get(seq).is_none() {
        return Ok(Turn::Same(Answer::Absent));
    }
    let profiles = card.profiles.copy(alloc)?;
    let eims = card.eims.copy(alloc)?;
    let mut store = card.store.copy(alloc)?;
    let _ = store.remove(seq);
    let next = Card {
        eid: card.eid,
        profiles,
        eims,
        store,
        armed: armed_without(card.armed, seq),
    };
    Ok(Turn::Changed(next, Answer::Removed))
}

// Whether the card has an eIM.
#[tactic(auto, unfolding(small_card::specs::EimOperations::is_empty_list))]
fn has_eims(eims: &Eims) -> bool
    ensures some { result ≡ not (is_empty_list eims.now.entries) }
{
    match eims.rows() {
        [] => false,
        [_, ..] => true,
    }
}

// The values of an eIM are in their ranges: this tells a proof so, and does nothing.
fn in_range(id: &EimId, address: &Address, key: &Key)
    ensures id { IsEimId id.now }
    ensures address { IsAddress address.now }
    ensures key { IsKey key.now }
{
    let _id = id.octets();
    let _address = address.octets();
    let _key = key.octets();
}

/// Answers the association of the first eIM.
pub(crate) fn associate(
    alloc: Global,
    card: &Card,
    id: EimId,
    address: Address,
    key: Key,
) -> Result<Turn, NoMemory>
    ensures turns { IfOk result (λ end. Turns (command.Initial id address key)
        (full_card card.now) end) }
{
    if has_eims(&card.eims) {
        return Ok(Turn::Same(Answer::InitialRefused { code: EIM_THERE }));
    }
    in_range(&id, &address, &key);
    let profiles = card.profiles.copy(alloc)?;
    let store = card.store.copy(alloc)?;
    let mut eims = card.eims.copy(alloc)?;
    match eims.add(id, address, key) {
        AddEnd::Added(association) => {
            let next = Card {
                eid: card.eid,
                profiles,
                eims,
                store,
                armed: card.armed,
            };
            Ok(Turn::Changed(next, Answer::Associated { association }))
        }
        AddEnd::Refused(_) => Ok(Turn::Same(Answer::InitialRefused {
            code: NO_ASSOCIATION_LEFT,
        })),
    }
}
