//! The card whose home the octets are.

ghost use Rattle.std.specs.Prelude.{◌≡◌, IfOk, IsErrOf};
ghost use Rattle.small_card.specs.Cards.{FullCard};
ghost use Rattle.home_codec.specs.FullCards.{full_card, GivesCard};
ghost use Rattle.home_codec.specs.Homes.{IsHomeOf};
ghost use Rattle.home_codec.specs.Reading.{card_at};

use crate::card::Card;
use crate::fitting::joined;
use crate::fixed::FixedFields;
use crate::head::read_head;
use crate::layout::{EIM_SLOT, EIM_SLOTS, PROFILE_SLOT, PROFILE_SLOTS};
use crate::results::pending;
use crate::slots::slots;
use iot_bytes::ReadError;
use small_card::{EimEntry, Profile};
use std::alloc::Global;

#[tactic(auto, unfolding(crate::specs::Reading::card_at))]
fn card_in(alloc: Global, home: &[u8]) -> Result<Card, ReadError>
    ensures { GivesCard result (card_at home.now) }
{
    let mut octets = FixedFields::of(home);
    let head = read_head(&mut octets)?;
    let count = usize::from(head.profiles);
    let profiles = slots::<Profile>(alloc, &mut octets, PROFILE_SLOT, PROFILE_SLOTS, count)?;
    let count = usize::from(head.eims);
    let eims = slots::<EimEntry>(alloc, &mut octets, EIM_SLOT, EIM_SLOTS, count)?;
    let pending = pending(alloc, octets)?;
    joined(head, profiles, eims, pending)
}

/// The card whose home the octets are.
///
/// # Errors
/// `Malformed` where they are the home of no card.
pub fn read_card(alloc: Global, home: &[u8]) -> Result<Card, ReadError>
    // The home is that of the card that is read, which is valid.
    ensures found { IfOk result (λ card. IsHomeOf (full_card card) home.now) }
    // The card whose home it is is read, unless memory runs out.
    ensures only { (f : FullCard) → IsHomeOf f home.now → GivesCard result (Some f) }
    // Malformed comes only where it is the home of no card.
    ensures malformed { IsErrOf result ReadError.Malformed → (f : FullCard) → IsHomeOf f home.now
        → ⊥ }
    // The reading word, for callers that compose it.
    ensures exact { GivesCard result (card_at home.now) }
{
    card_in(alloc, home)
}
