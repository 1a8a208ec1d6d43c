//! Which pending result stands in which slot of the home.

ghost use Rattle.std.specs.Prelude.{◌≡◌, ◌≤◌, ◌+◌, ◌<◌, ℕ, Some, None, length, position};
ghost use Rattle.std.specs.Prelude.{IfOk, IfSome, false};
ghost use Rattle.std.specs.List.{list_any};
ghost use Rattle.chip_port.specs.Rules.{IfTold, Takes};
ghost use Rattle.small_card.specs.Lists.{EveryPair};
ghost use Rattle.small_card.specs.Ranges.{IsBefore};
ghost use Rattle.small_card.specs.Units.{has_seq};
ghost use Rattle.undo_journal.specs.Home.{home_in};
ghost use Rattle.home_codec.specs.Ordering.{somes};
ghost use Rattle.card_store.specs.Looking.{HasCauseOf};
ghost use Rattle.card_store.specs.Comparing.{Tries};
ghost use Rattle.card_store.specs.Seats.{AreSeats, AreApart, Filling, IsOnlyGone, IsSlotOfNew};
ghost use Rattle.card_store.specs.Seats.{TellsNumber, TellsNumbers};
ghost use Rattle.card_store.specs.Seats.{seat_at, is_free, places_of};
ghost use Rattle.card_store.specs.Seats.{has_number, stands, is_gone, others_stand};
ghost use Rattle.card_store.specs.Slots.{KeepsSlots, numbers_of};

use crate::ends::StageError;
use chip_port::Chip;
use home_codec::slot_number;
use small_card::PackageResult;
use undo_journal::home_at;

/// How many result slots there are.
pub(crate) const SLOTS: usize = 8;

/// The first block of the result slots, and how many blocks a slot has.
pub(crate) const FIRST_SLOT: u16 = 25;

pub(crate) const SLOT_BLOCKS: u16 = 81;

/// The octets at the front of a slot that tell the number of its result.
const FRONT: usize = 32;

// The number of the result in a slot on the chip.
fn read_number<C: Chip>(chip: &mut C, slot: u16) -> Result<Option<u32>, StageError>
    requires { slot < 8 }
    ensures cause { HasCauseOf StageError.Failed (C.sees chip.old) (C.sees chip.new) result }
    ensures spare { Takes 0 0 (C.sees chip.old) (C.sees chip.new) }
    ensures tries { IfTold (C.sees chip.old) (Tries 1 result (C.sees chip.old) (C.sees chip.new)) }
    ensures told { IfOk result (λ number. IfTold (C.sees chip.old)
        (TellsNumber number slot (home_in (C.sees chip.old).reads))) }
{
    let mut front = [0; FRONT];
    match chip.read(home_at(FIRST_SLOT + SLOT_BLOCKS * slot), &mut front) {
        Ok(()) => Ok(slot_number(&front)),
        Err(_failed) => Err(StageError::Failed),
    }
}

/// The numbers of the results in the slots, as they stand on the chip.
pub(crate) fn read_numbers<C: Chip>(chip: &mut C) -> Result<[Option<u32>; 8], StageError>
    ensures cause { HasCauseOf StageError.Failed (C.sees chip.old) (C.sees chip.new) result }
    ensures spare { Takes 0 0 (C.sees chip.old) (C.sees chip.new) }
    ensures tries { IfTold (C.sees chip.old) (Tries 8 result (C.sees chip.old) (C.sees chip.new)) }
    ensures told { IfOk result (λ numbers. IfTold (C.sees chip.old)
        (TellsNumbers numbers (home_in (C.sees chip.old).reads))) }
{
    let mut numbers = [None; SLOTS];
    for slot in 0..SLOTS {
        match read_number(chip, slot as u16) {
            Ok(number) => numbers[slot] = number,
            Err(error) => return Err(error),
        }
    }
    Ok(numbers)
}

// Whether it is the number of a slot's result.
fn has_number(number: Option<u32>, seq: u32) -> bool
    ensures { result ≡ has_number seq number }
{
    match number {
        Some(found) => found == seq,
        None => false,
    }
}

// The slot of the result with this number.
fn slot_of(numbers: &[Option<u32>; 8], seq: u32) -> Option<usize>
    ensures { result ≡ position (has_number seq) numbers.now }
{
    numbers.iter().position(|number| has_number(*number, seq))
}

// Whether a result with this number stands in a slot.
fn stands(numbers: &[Option<u32>; 8], seq: u32) -> bool
    ensures { result ≡ stands numbers.now seq }
{
    numbers.iter().any(|number| has_number(*number, seq))
}

fn is_pending(pending: &[PackageResult], seq: u32) -> bool
    ensures { result ≡ list_any (has_seq seq) pending.now }
{
    pending.iter().any(|kept| kept.seq == seq)
}

// Whether a slot's result is none of these.
fn is_gone(number: Option<u32>, pending: &[PackageResult]) -> bool
    ensures { result ≡ is_gone pending.now number }
{
    match number {
        Some(seq) => !is_pending(pending, seq),
        None => false,
    }
}

// The first slot whose result is gone.
fn first_gone(numbers: &[Option<u32>; 8], pending: &[PackageResult]) -> Option<usize>
    ensures { result ≡ position (is_gone pending.now) numbers.now }
{
    numbers.iter().position(|number| is_gone(*number, pending))
}

fn any_gone(numbers: &[Option<u32>], pending: &[PackageResult]) -> bool
    ensures { result ≡ list_any (is_gone pending.now) numbers.now }
{
    numbers.iter().any(|number| is_gone(*number, pending))
}

// The slot of the one result that is gone, where there is exactly one.
fn gone_slot(numbers: &[Option<u32>; 8], pending: &[PackageResult]) -> Option<usize>
    ensures some { IfSome result (λ slot. (slot < 8) × IsOnlyGone pending.now numbers.now slot) }
    ensures none { result ≡ None → (slot : ℕ) → IsOnlyGone pending.now numbers.now slot → ⊥ }
{
    match first_gone(numbers, pending) {
        Some(slot) => {
            if any_gone(&numbers[slot + 1..], pending) {
                None
            } else {
                Some(slot)
            }
        }
        None => None,
    }
}

// Whether each result but this one stands in a slot.
fn others_stand(numbers: &[Option<u32>; 8], pending: &[PackageResult], seq: u32) -> bool
    ensures { result ≡ others_stand numbers.now pending.now seq }
{
    pending
        .iter()
        .all(|kept| kept.seq == seq || stands(numbers, kept.seq))
}

fn is_free(seat: Option<usize>) -> bool
    ensures { result ≡ is_free seat }
{
    match seat {
        Some(_) => false,
        None => true,
    }
}

fn first_free(seats: &[Option<usize>; 8]) -> Option<usize>
    ensures { result ≡ position is_free seats.now }
{
    seats.iter().position(|seat| is_free(*seat))
}

// The lowest free slot.
fn lowest_free(seats: &[Option<usize>; 8]) -> usize
    requires { length (somes seats.now) < 8 }
    ensures within { result < 8 }
    ensures free { seat_at seats.now result ≡ None }
    ensures lower { (lower : ℕ) → lower < result → (i : ℕ) × (seat_at seats.now lower ≡ Some i) }
{
    match first_free(seats) {
        Some(slot) => slot,
        None => 0,
    }
}

// The slot of a result that came.
fn slot_of_new(
    numbers: &[Option<u32>; 8],
    pending: &[PackageResult],
    seats: &[Option<usize>; 8],
    seq: u32,
) -> usize
    requires { length (somes seats.now) < 8 }
    ensures within { result < 8 }
    ensures place { IsSlotOfNew numbers.now pending.now seats.now seq result }
{
    match gone_slot(numbers, pending) {
        Some(slot) => {
            if others_stand(numbers, pending, seq) {
                slot
            } else {
                lowest_free(seats)
            }
        }
        None => lowest_free(seats),
    }
}

// The seats of the results that have stayed.
fn keep_seats(numbers: &[Option<u32>; 8], pending: &[PackageResult]) -> [Option<usize>; 8]
    requires { EveryPair IsBefore pending.now }
    ensures { Filling numbers.now pending.now 0 result }
{
    let mut seats = [None; SLOTS];
    for (index, kept) in pending.iter().enumerate() {
        match slot_of(numbers, kept.seq) {
            Some(slot) => seats[slot] = Some(index),
            None => {}
        }
    }
    seats
}

/// Gives each pending result a slot. A result keeps the slot that it has on the chip; where one is
/// gone and one came, this one takes that slot; each other new one takes the lowest free slot.
pub(crate) fn arrange(numbers: &[Option<u32>; 8], pending: &[PackageResult]) -> [Option<usize>; 8]
    requires few { length pending.now ≤ 8 }
    requires rising { EveryPair IsBefore pending.now }
    ensures seats { AreSeats pending.now pending.now result }
    ensures kept { AreApart numbers.now
        → KeepsSlots numbers.now (numbers_of (places_of pending.now result)) }
{
    let mut seats = keep_seats(numbers, pending);
    for (index, kept) in pending.iter().enumerate() {
        if !stands(numbers, kept.seq) {
            let slot = slot_of_new(numbers, pending, &seats, kept.seq);
            seats[slot] = Some(index);
        }
    }
    seats
}
