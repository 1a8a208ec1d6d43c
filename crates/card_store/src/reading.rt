//! Reading the card that stands on a chip.

ghost use Rattle.std.specs.Prelude.{◌≡◌, ◌≤◌, ◌<◌, length, OnOk, IfOk};
ghost use Rattle.chip_port.specs.Rules.{HasCause, IfTold, Takes};
ghost use Rattle.small_card.specs.Valid.{IsValid};
ghost use Rattle.home_codec.specs.FullCards.{full_card};
ghost use Rattle.card_store.specs.Looking.{HasCauseOf, ReadsBlock};
ghost use Rattle.card_store.specs.Loading.{ReadsHome, ReadsFields, ReadsCard, Loads};
ghost use Rattle.card_store.specs.Loading.{of_recovery, of_reading};

use crate::ends::LoadEnd;
use chip_port::{Chip, Failed};
use home_codec::{Card, read_card};
use iot_bytes::{ReadError, Row};
use std::alloc::Global;
use undo_journal::{BLOCK, BLOCKS, RecoverEnd, home_at, recover};

/// One home block.
pub(crate) fn read_block<C: Chip>(chip: &mut C, block: u16) -> Result<[u8; 256], Failed>
    requires { block < 673 }
    ensures cause { HasCause (C.sees chip.old) (C.sees chip.new) result }
    ensures spare { Takes 0 0 (C.sees chip.old) (C.sees chip.new) }
    ensures len { IfOk result (λ octets. length octets ≡ 256) }
    ensures told { IfTold (C.sees chip.old)
        (ReadsBlock block result (C.sees chip.old) (C.sees chip.new)) }
{
    let mut octets = [0; BLOCK];
    match chip.read(home_at(block), &mut octets) {
        Ok(()) => Ok(octets),
        Err(failed) => Err(failed),
    }
}

// The home, block by block.
fn read_home<C: Chip>(alloc: Global, chip: &mut C) -> Result<Row<u8>, LoadEnd>
    ensures cause { HasCauseOf LoadEnd.Failed (C.sees chip.old) (C.sees chip.new) result }
    ensures spare { Takes 0 0 (C.sees chip.old) (C.sees chip.new) }
    ensures told { IfTold (C.sees chip.old)
        (ReadsHome result (C.sees chip.old) (C.sees chip.new)) }
{
    let mut home = Row::new(alloc);
    for block in 0..BLOCKS as u16 {
        match read_block(chip, block) {
            Ok(octets) => {
                if home.append(&octets).is_err() {
                    return Err(LoadEnd::NoMemory);
                }
            }
            Err(_failed) => return Err(LoadEnd::Failed),
        }
    }
    Ok(home)
}

fn of_recovery(end: RecoverEnd) -> LoadEnd
    ensures { result ≡ of_recovery end }
{
    match end {
        RecoverEnd::Failed => LoadEnd::Failed,
        RecoverEnd::Foreign => LoadEnd::Unrecognised,
        RecoverEnd::NoMemory => LoadEnd::NoMemory,
    }
}

fn of_reading(error: ReadError) -> LoadEnd
    ensures { result ≡ of_reading error }
{
    match error {
        ReadError::Malformed => LoadEnd::Unrecognised,
        ReadError::NoMemory => LoadEnd::NoMemory,
    }
}

// The card whose home these octets are.
fn read_fields(alloc: Global, home: &[u8]) -> Result<Card, LoadEnd>
    ensures { ReadsFields result home.now }
{
    match read_card(alloc, home) {
        Ok(card) => Ok(card),
        Err(error) => Err(of_reading(error)),
    }
}

// The card of an idle chip.
fn read_idle<C: Chip>(alloc: Global, chip: &mut C) -> Result<Card, LoadEnd>
    ensures cause { HasCauseOf LoadEnd.Failed (C.sees chip.old) (C.sees chip.new) result }
    ensures spare { Takes 0 0 (C.sees chip.old) (C.sees chip.new) }
    ensures valid { IfOk result (λ card. IsValid (full_card card)) }
    ensures told { IfTold (C.sees chip.old)
        (ReadsCard result (C.sees chip.old) (C.sees chip.new)) }
{
    match read_home(alloc, chip) {
        Ok(home) => read_fields(alloc, home.as_slice()),
        Err(end) => Err(end),
    }
}

/// Recovers the chip and reads the card that stands on it, block by block. After it one spare call
/// is left, for `answer`.
///
/// # Errors
/// `Unrecognised` where the chip stands for no card.
pub fn load<C: Chip>(alloc: Global, chip: &mut C) -> Result<Card, LoadEnd>
    ensures cause { HasCauseOf LoadEnd.Failed (C.sees chip.old) (C.sees chip.new) result }
    ensures valid { IfOk result (λ card. IsValid (full_card card)) }
    ensures room { OnOk result (1 ≤ (C.sees chip.new).spare.calls) }
    ensures told { IfTold (C.sees chip.old) (Loads result (C.sees chip.old) (C.sees chip.new)) }
{
    match recover(chip) {
        Ok(()) => read_idle(alloc, chip),
        Err(end) => Err(of_recovery(end)),
    }
}
