//! The octets of a card's home, whole or of one part.

ghost use Rattle.std.specs.Prelude.{◌≡◌, ◌≤◌, length, IfOk, IfSome, OnOk, ◌++◌};
ghost use Rattle.std.specs.Option.{option_copied};
ghost use Rattle.small_card.specs.Ranges.{IsResult};
ghost use Rattle.small_card.specs.Valid.{IsValid};
ghost use Rattle.home_codec.specs.FullCards.{full_card};
ghost use Rattle.home_codec.specs.Layout.{slot_front};
ghost use Rattle.home_codec.specs.Homes.{fields, home_of, IsHomeOf};

use crate::card::Card;
use crate::head::Head;
use crate::writing::{put_fields, put_kept, put_pending, put_word};
use iot_bytes::{NoMemory, Row};
use small_card::PackageResult;
use std::alloc::Global;

fn fields_of(alloc: Global, card: &Card) -> Result<Row<u8>, NoMemory>
    requires { IsValid (full_card card.now) }
    ensures { IfOk result (λ octets. octets ≡ fields (full_card card.now)) }
{
    let profiles = card.profiles.rows();
    let eims = card.eims.rows();
    let head = Head {
        eid: card.eid,
        profiles: profiles.len() as u8,
        eims: eims.len() as u8,
        association: card.eims.next(),
        seq: card.store.next(),
        armed: card.armed,
    };
    let mut out = Row::new(alloc);
    put_fields(&mut out, &head, profiles, eims)?;
    Ok(out)
}

/// The octets in front of the result slots: the head, and the slots of the profiles and the eIMs.
pub fn fields_octets(alloc: Global, card: &Card) -> Result<Row<u8>, NoMemory>
    requires { IsValid (full_card card.now) }
    ensures octets { IfOk result (λ octets. octets ≡ fields (full_card card.now)) }
    ensures len { IfOk result (λ octets. length octets ≡ 6400) }
{
    fields_of(alloc, card)
}

#[tactic(auto, unfolding(crate::specs::Layout::slot_front))]
fn front_of(alloc: Global, place: Option<&PackageResult>) -> Result<Row<u8>, NoMemory>
    requires { IfSome place (λ kept. IsResult kept.now) }
    ensures { IfOk result (λ octets. octets ≡ slot_front (option_copied place.entry)) }
{
    let mut out = Row::new(alloc);
    match place {
        Some(kept) => put_kept(&mut out, kept)?,
        None => put_word(&mut out, 0)?,
    }
    Ok(out)
}

/// What a result slot begins with: the length of its result and the result, or the length 0 where
/// the slot is free. The octets behind it in the slot may be any.
pub fn slot_octets(alloc: Global, place: Option<&PackageResult>) -> Result<Row<u8>, NoMemory>
    requires { IfSome place (λ kept. IsResult kept.now) }
    ensures octets { IfOk result (λ octets. octets ≡ slot_front (option_copied place.entry)) }
    ensures len { IfOk result (λ octets. length octets ≤ 18313) }
{
    front_of(alloc, place)
}

fn home_with(alloc: Global, card: &Card) -> Result<Row<u8>, NoMemory>
    requires { IsValid (full_card card.now) }
    ensures { IfOk result (λ home. home ≡ home_of (full_card card.now)) }
{
    let mut out = fields_of(alloc, card)?;
    put_pending(&mut out, card.store.rows())?;
    Ok(out)
}

/// The octets of the card's home: each pending result stands in the slot of its place in the list.
pub fn home_octets(alloc: Global, card: &Card) -> Result<Row<u8>, NoMemory>
    requires { IsValid (full_card card.now) }
    ensures octets { IfOk result (λ home. home ≡ home_of (full_card card.now)) }
    ensures len { IfOk result (λ home. length home ≡ 172288) }
    ensures home { IfOk result (λ home. IsHomeOf (full_card card.now) home) }
{
    home_with(alloc, card)
}
