//! Finding the blocks that make the home of a new card, area by area.

ghost use Rattle.std.specs.Prelude.{◌≡◌, ◌+◌, ◌*◌, ◌<◌, [], List, Option, None};
ghost use Rattle.std.specs.Prelude.{length, OnOk, IfOk, IfSome};
ghost use Rattle.std.specs.Option.{option_copied};
ghost use Rattle.chip_port.specs.Rules.{IfTold, Takes};
ghost use Rattle.undo_journal.specs.Home.{home_in, put_back};
ghost use Rattle.small_card.specs.Cards.{FullCard};
ghost use Rattle.small_card.specs.Lists.{Every};
ghost use Rattle.small_card.specs.Ranges.{IsResult};
ghost use Rattle.small_card.specs.Valid.{IsValid};
ghost use Rattle.small_card.specs.declared.types.PackageResult.{PackageResult as Kept};
ghost use Rattle.home_codec.specs.FullCards.{full_card};
ghost use Rattle.card_store.specs.Looking.{HasCauseOf};
ghost use Rattle.card_store.specs.Seats.{AreSeats, seated as seat_result, places_of};
ghost use Rattle.card_store.specs.Slots.{StandIn};
ghost use Rattle.card_store.specs.Comparing.{Tries, Lists, IsListed, Fronted, IsFound, place_in};

use crate::changes::{Changes, compare};
use crate::ends::StageError;
use crate::seats::{FIRST_SLOT, SLOT_BLOCKS, SLOTS};
use chip_port::Chip;
use home_codec::{Card, fields_octets, slot_octets};
use small_card::PackageResult;
use std::alloc::Global;

// The head, and the slots of profiles and eIMs.
fn compare_fields<C: Chip>(
    alloc: Global,
    chip: &mut C,
    changes: &mut Changes,
    new: &Card,
) -> Result<(), StageError>
    requires valid { IsValid (full_card new.now) }
    requires blocks { changes.old.blocks ≡ [] }
    requires octets { changes.old.octets ≡ [] }
    ensures cause { HasCauseOf StageError.Failed (C.sees chip.old) (C.sees chip.new) result }
    ensures spare { Takes 0 0 (C.sees chip.old) (C.sees chip.new) }
    ensures tries { IfTold (C.sees chip.old) (Tries 72 result (C.sees chip.old) (C.sees chip.new)) }
    ensures listed { OnOk result (IsListed changes.new 25) }
    ensures told { OnOk result (IfTold (C.sees chip.old) ((places : List (Option Kept))
        → Fronted (full_card new.now) places 0 changes.new (home_in (C.sees chip.old).reads))) }
{
    match fields_octets(alloc, new) {
        Ok(octets) => compare(chip, changes, 0, octets.as_slice()),
        Err(_no_memory) => Err(StageError::NoMemory),
    }
}

// One result slot.
fn compare_slot<C: Chip>(
    alloc: Global,
    chip: &mut C,
    changes: &mut Changes,
    slot: u16,
    place: Option<&PackageResult>,
) -> Result<(), StageError>
    requires slot { slot < 8 }
    requires ranges { IfSome place (λ kept. IsResult kept.now) }
    ensures cause { HasCauseOf StageError.Failed (C.sees chip.old) (C.sees chip.new) result }
    ensures spare { Takes 0 0 (C.sees chip.old) (C.sees chip.new) }
    ensures tries { IfTold (C.sees chip.old) (Tries 72 result (C.sees chip.old) (C.sees chip.new)) }
    ensures listed { OnOk result (Lists (25 + 81 * slot) (25 + 81 * (slot + 1))
        changes.old changes.new) }
    ensures told { OnOk result (IfTold (C.sees chip.old)
        ((f : FullCard) (places : List (Option Kept))
        → length places ≡ 8 → place_in places slot ≡ option_copied place.entry
        → Fronted f places slot changes.old (home_in (C.sees chip.old).reads)
        → Fronted f places (slot + 1) changes.new (home_in (C.sees chip.old).reads))) }
{
    match slot_octets(alloc, place) {
        Ok(front) => compare(
            chip,
            changes,
            FIRST_SLOT + SLOT_BLOCKS * slot,
            front.as_slice(),
        ),
        Err(_no_memory) => Err(StageError::NoMemory),
    }
}

// The result of a seat.
fn seated(pending: &[PackageResult], seat: Option<usize>) -> Option<&PackageResult>
    requires { Every IsResult pending.now }
    ensures result { option_copied result ≡ seat_result pending.now seat }
    ensures ranges { IfSome result (λ kept. IsResult kept.now) }
{
    match seat {
        Some(at) => pending.get(at),
        None => None,
    }
}

// All result slots.
fn compare_slots<C: Chip>(
    alloc: Global,
    chip: &mut C,
    changes: &mut Changes,
    pending: &[PackageResult],
    seats: &[Option<usize>; 8],
) -> Result<(), StageError>
    requires ranges { Every IsResult pending.now }
    ensures cause { HasCauseOf StageError.Failed (C.sees chip.old) (C.sees chip.new) result }
    ensures spare { Takes 0 0 (C.sees chip.old) (C.sees chip.new) }
    ensures tries { IfTold (C.sees chip.old)
        (Tries 576 result (C.sees chip.old) (C.sees chip.new)) }
    ensures listed { OnOk result (Lists 25 673 changes.old changes.new) }
    ensures told { OnOk result (IfTold (C.sees chip.old) ((f : FullCard)
        → Fronted f (places_of pending.now seats.now) 0 changes.old
        (home_in (C.sees chip.old).reads)
        → Fronted f (places_of pending.now seats.now) 8 changes.new
        (home_in (C.sees chip.old).reads))) }
{
    for slot in 0..SLOTS {
        let place = seated(pending, seats[slot]);
        match compare_slot(alloc, chip, changes, slot as u16, place) {
            Ok(()) => {}
            Err(error) => return Err(error),
        }
    }
    Ok(())
}

/// The blocks that make the home of a card, whose pending results stand as the seats say.
pub(crate) fn find<C: Chip>(
    alloc: Global,
    chip: &mut C,
    new: &Card,
    seats: &[Option<usize>; 8],
) -> Result<Changes, StageError>
    requires valid { IsValid (full_card new.now) }
    requires seats { AreSeats (full_card new.now).card.results.pending
        (full_card new.now).card.results.pending seats.now }
    ensures cause { HasCauseOf StageError.Failed (C.sees chip.old) (C.sees chip.new) result }
    ensures spare { Takes 0 0 (C.sees chip.old) (C.sees chip.new) }
    ensures tries { IfTold (C.sees chip.old)
        (Tries 648 result (C.sees chip.old) (C.sees chip.new)) }
    ensures listed { IfOk result (λ changes. IsListed changes 673) }
    ensures told { IfOk result (λ changes. IfTold (C.sees chip.old)
        (IsFound (full_card new.now) changes (home_in (C.sees chip.old).reads))) }
    ensures placed { IfOk result (λ changes. IfTold (C.sees chip.old)
        (StandIn (places_of (full_card new.now).card.results.pending seats.now)
        (put_back changes.blocks changes.octets (home_in (C.sees chip.old).reads)))) }
{
    let mut changes = Changes::none(alloc);
    match compare_fields(alloc, chip, &mut changes, new) {
        Ok(()) => {}
        Err(error) => return Err(error),
    }
    match compare_slots(alloc, chip, &mut changes, new.store.rows(), seats) {
        Ok(()) => Ok(changes),
        Err(error) => Err(error),
    }
}
