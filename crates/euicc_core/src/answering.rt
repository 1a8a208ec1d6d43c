//! What a command made of a lit card is written to the chip as one unit, and answered.

ghost use Rattle.std.specs.Prelude.{◌≡◌, ◌≤◌, IfOk, OnOk};
ghost use Rattle.chip_port.specs.Rules.{IfTold};
ghost use Rattle.small_card.specs.Cards.{FullCard};
ghost use Rattle.small_card.specs.Valid.{IsValid};
ghost use Rattle.home_codec.specs.FullCards.{full_card};
ghost use Rattle.card_store.specs.Standing.{IsSettled};
ghost use Rattle.card_store.specs.Looking.{HasCauseOf};
ghost use Rattle.euicc_core.specs.Closing.{failure_of, Writes, ClosesUnit, ClosesSame};

use card_store::{Card, StageError, stage};
use chip_port::Chip;
use std::alloc::Global;

/// Answers for a card that stays.
pub(crate) fn answer_same<C: Chip>(chip: &mut C) -> Result<(), StageError>
    ensures cause { HasCauseOf StageError.Failed (C.sees chip.old) (C.sees chip.new) result }
    ensures told { IfTold (C.sees chip.old) ((c : FullCard) → IsSettled c (C.sees chip.old)
        → ClosesSame c (failure_of result) (C.sees chip.old) (C.sees chip.new)) }
{
    let Ok(()) = chip.prepare(1, 0) else {
        return Err(StageError::NoMemory);
    };
    match chip.answer() {
        Ok(()) => Ok(()),
        Err(_failed) => Err(StageError::Failed),
    }
}

// Writes a new card in place of the old one, as one unit.
fn write<C: Chip>(alloc: Global, chip: &mut C, old: &Card, new: Card) -> Result<Card, StageError>
    requires settled { IfTold (C.sees chip.old)
        (IsSettled (full_card old.now) (C.sees chip.old)) }
    requires valid { IsValid (full_card new) }
    ensures cause { HasCauseOf StageError.Failed (C.sees chip.old) (C.sees chip.new) result }
    ensures card { IfOk result (λ card. full_card card ≡ full_card new) }
    ensures room { OnOk result (1 ≤ (C.sees chip.new).spare.calls) }
    ensures told { IfTold (C.sees chip.old) (Writes (full_card old.now) (full_card new)
        (failure_of result)
        (C.sees chip.old) (C.sees chip.new)) }
{
    match stage(alloc, chip, old, new) {
        Ok(staged) => match staged.commit(chip) {
            Ok(card) => Ok(card),
            Err(_failed) => Err(StageError::Failed),
        },
        Err(error) => Err(error),
    }
}

/// Writes a new card in place of the old one, and answers.
pub(crate) fn unit<C: Chip>(
    alloc: Global,
    chip: &mut C,
    old: &Card,
    new: Card,
) -> Result<Card, StageError>
    requires settled { IfTold (C.sees chip.old)
        (IsSettled (full_card old.now) (C.sees chip.old)) }
    requires valid { IsValid (full_card new) }
    ensures cause { HasCauseOf StageError.Failed (C.sees chip.old) (C.sees chip.new) result }
    ensures card { IfOk result (λ card. full_card card ≡ full_card new) }
    ensures told { IfTold (C.sees chip.old) (ClosesUnit (full_card old.now) (full_card new)
        (failure_of result)
        (C.sees chip.old) (C.sees chip.new)) }
{
    match write(alloc, chip, old, new) {
        Ok(card) => match chip.answer() {
            Ok(()) => Ok(card),
            Err(_failed) => Err(StageError::Failed),
        },
        Err(error) => Err(error),
    }
}
