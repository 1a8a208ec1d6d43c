//! Making a card on a chip.
//!
//! The magic is taken away first and put there last, each synced, so that a cut on the way leaves
//! no home that is half old and half new.

ghost use Rattle.std.specs.Prelude.{◌≡◌, ◌≤◌, length, is_ok, OnOk, IfOk, false};
ghost use Rattle.chip_port.specs.Rules.{HasCause, IfTold, Only};
ghost use Rattle.undo_journal.specs.Home.{has_magic, home_in, is_open};
ghost use Rattle.undo_journal.specs.States.{TakesAtMost};
ghost use Rattle.small_card.specs.Fresh.{fresh};
ghost use Rattle.small_card.specs.Valid.{IsValid};
ghost use Rattle.home_codec.specs.FullCards.{full_card};
ghost use Rattle.card_store.specs.Looking.{HasCauseOf};
ghost use Rattle.card_store.specs.Formatting.{Formats, Erases, Fills, Signs, Makes};

use crate::ends::MakeError;
use chip_port::{Chip, Failed};
use eim_table::Eims;
use home_codec::{Card, home_octets};
use iot_bytes::NoMemory;
use profile_table::Table;
use result_store::Store;
use sgp_values::Eid;
use std::alloc::Global;
use undo_journal::{GATE, HOME, MAGIC};

/// The next association and the next sequence number of a card that was just made.
const FIRST_NUMBER: u32 = 1;

/// The gate octet of a new card.
const CLOSED: u8 = 0;

/// The calls that a format takes, and one for the answer.
const CALLS: u64 = 8;

/// The octets that it writes: the magic twice, the gate, and the home.
const OCTETS: u64 = 172_305;

// The parts of a card that was just made.
#[tactic(auto, unfolding(small_card::specs::Fresh::fresh))]
fn fresh_card(alloc: Global, eid: Eid, profiles: Table) -> Result<Card, NoMemory>
    ensures card { IfOk result (λ card. full_card card ≡ fresh eid profiles) }
    ensures valid { IfOk result (λ card. IsValid (full_card card)) }
{
    let _range = eid.octets();
    let _apart = profiles.rows();
    Ok(Card {
        eid,
        profiles,
        eims: Eims::new(alloc, FIRST_NUMBER)?,
        store: Store::new(alloc, FIRST_NUMBER)?,
        armed: None,
    })
}

// Takes the magic away.
fn erase<C: Chip>(chip: &mut C) -> Result<(), Failed>
    requires calls { 2 ≤ (C.sees chip.old).spare.calls }
    requires octets { 8 ≤ (C.sees chip.old).spare.octets }
    ensures cause { HasCause (C.sees chip.old) (C.sees chip.new) result }
    ensures spare { TakesAtMost 2 8 (C.sees chip.old) (C.sees chip.new) }
    ensures told { IfTold (C.sees chip.old)
        (Erases (is_ok result) (C.sees chip.old) (C.sees chip.new)) }
{
    chip.write_at(0, &[0; 8])?;
    chip.sync()
}

// Writes the gate and the home.
fn fill<C: Chip>(chip: &mut C, home: &[u8]) -> Result<(), Failed>
    requires calls { 3 ≤ (C.sees chip.old).spare.calls }
    requires octets { 172289 ≤ (C.sees chip.old).spare.octets }
    requires size { length home.now ≡ 172288 }
    requires alone { IfTold (C.sees chip.old)
        (Only (C.sees chip.old).reads (C.sees chip.old).leaves) }
    requires blank { IfTold (C.sees chip.old) (has_magic (C.sees chip.old).reads ≡ false) }
    ensures cause { HasCause (C.sees chip.old) (C.sees chip.new) result }
    ensures spare { TakesAtMost 3 172289 (C.sees chip.old) (C.sees chip.new) }
    ensures told { IfTold (C.sees chip.old)
        (Fills home.now (is_ok result) (C.sees chip.old) (C.sees chip.new)) }
{
    chip.write_at(GATE, &[CLOSED])?;
    chip.write_at(HOME, home)?;
    chip.sync()
}

// Puts the magic there.
fn sign<C: Chip>(chip: &mut C) -> Result<(), Failed>
    requires calls { 2 ≤ (C.sees chip.old).spare.calls }
    requires octets { 8 ≤ (C.sees chip.old).spare.octets }
    requires alone { IfTold (C.sees chip.old)
        (Only (C.sees chip.old).reads (C.sees chip.old).leaves) }
    requires shut { IfTold (C.sees chip.old) (is_open (C.sees chip.old).reads ≡ false) }
    ensures cause { HasCause (C.sees chip.old) (C.sees chip.new) result }
    ensures spare { TakesAtMost 2 8 (C.sees chip.old) (C.sees chip.new) }
    ensures told { IfTold (C.sees chip.old)
        (Signs (home_in (C.sees chip.old).reads) (is_ok result) (C.sees chip.old)
        (C.sees chip.new)) }
{
    chip.write_at(0, &MAGIC)?;
    chip.sync()
}

// Writes a whole new image.
fn write_new<C: Chip>(chip: &mut C, home: &[u8]) -> Result<(), Failed>
    requires calls { 7 ≤ (C.sees chip.old).spare.calls }
    requires octets { 172305 ≤ (C.sees chip.old).spare.octets }
    requires size { length home.now ≡ 172288 }
    ensures cause { HasCause (C.sees chip.old) (C.sees chip.new) result }
    ensures spare { TakesAtMost 7 172305 (C.sees chip.old) (C.sees chip.new) }
    ensures told { IfTold (C.sees chip.old)
        (Makes home.now (is_ok result) (C.sees chip.old) (C.sees chip.new)) }
{
    erase(chip)?;
    fill(chip, home)?;
    sign(chip)
}

/// Makes a card with these profiles, no eIM and no result, whatever stood on the chip. All memory
/// is taken before anything is read or written. After it one spare call is left, for `answer`.
pub fn format<C: Chip>(
    alloc: Global,
    chip: &mut C,
    eid: Eid,
    profiles: Table,
) -> Result<Card, MakeError>
    ensures cause { HasCauseOf MakeError.Failed (C.sees chip.old) (C.sees chip.new) result }
    ensures card { IfOk result (λ card. full_card card ≡ fresh eid profiles) }
    ensures valid { IfOk result (λ card. IsValid (full_card card)) }
    ensures room { OnOk result (1 ≤ (C.sees chip.new).spare.calls) }
    ensures told { IfTold (C.sees chip.old)
        (Formats (fresh eid profiles) result (C.sees chip.old) (C.sees chip.new)) }
{
    let Ok(card) = fresh_card(alloc, eid, profiles) else {
        return Err(MakeError::NoMemory);
    };
    let Ok(home) = home_octets(alloc, &card) else {
        return Err(MakeError::NoMemory);
    };
    let Ok(()) = chip.prepare(CALLS, OCTETS) else {
        return Err(MakeError::NoMemory);
    };
    match write_new(chip, home.as_slice()) {
        Ok(()) => Ok(card),
        Err(_failed) => Err(MakeError::Failed),
    }
}
