//! A unit that is staged and committed.

ghost use Rattle.std.specs.Prelude.{◌≡◌, ◌≤◌, ◌+◌, ◌*◌, [], IsOk, is_ok, length, OnOk, IfOk};
ghost use Rattle.chip_port.specs.Rules.{HasCause, IfTold};
ghost use Rattle.undo_journal.specs.Home.{home_in};
ghost use Rattle.undo_journal.specs.States.{TakesAtMost};
ghost use Rattle.small_card.specs.Cards.{FullCard};
ghost use Rattle.small_card.specs.Valid.{IsValid};
ghost use Rattle.home_codec.specs.FullCards.{full_card};
ghost use Rattle.card_store.specs.Changed.{count_changed};
ghost use Rattle.card_store.specs.Standing.{IsSettled};
ghost use Rattle.card_store.specs.Comparing.{IsListed, IsFound, KeepsAll, Tries};
ghost use Rattle.card_store.specs.Looking.{HasCauseOf};
ghost use Rattle.card_store.specs.Staging.{IsStagedOn, HasRoom, Stages, Commits, Readies};

use crate::changes::Changes;
use crate::ends::StageError;
use crate::finding::find;
use crate::seats::{arrange, read_numbers};
use crate::writing::rewrite;
use chip_port::{Chip, Failed};
use home_codec::Card;
use iot_bytes::Row;
use std::alloc::Global;
use std::marker::Model;

/// A unit before it is written: the blocks that change with their octets, and the card that they
/// make.
#[derive(Debug, Drop)]
pub struct Staged {
    blocks: Row<u16>,
    octets: Row<u8>,
    card: Card,
}

impl Model for Staged {
    ghost use Rattle.card_store.specs.Staging.{Plan};

    ghost Value = { Plan };

    ghost use Rattle.card_store.specs.Planned.{plan_of, IsStaged};

    ghost view = { plan_of };

    ghost invariant = { IsStaged };
}

// The changes that make the home of a card.
fn changes_to<C: Chip>(alloc: Global, chip: &mut C, new: &Card) -> Result<Changes, StageError>
    requires { IsValid (full_card new.now) }
    ensures cause { HasCauseOf StageError.Failed (C.sees chip.old) (C.sees chip.new) result }
    ensures tries { IfTold (C.sees chip.old)
        (Tries 656 result (C.sees chip.old) (C.sees chip.new)) }
    ensures listed { IfOk result (λ changes. IsListed changes 673) }
    ensures told { IfOk result (λ changes. IfTold (C.sees chip.old)
        (IsFound (full_card new.now) changes (home_in (C.sees chip.old).reads))) }
    ensures slots { IfOk result (λ changes. IfTold (C.sees chip.old)
        ((c : FullCard) → IsSettled c (C.sees chip.old)
        → KeepsAll changes (home_in (C.sees chip.old).reads))) }
{
    match read_numbers(chip) {
        Ok(numbers) => find(alloc, chip, new, &arrange(&numbers, new.store.rows())),
        Err(error) => Err(error),
    }
}

// How many blocks change.
fn count_of(changes: &Changes) -> u64
    requires { IsListed changes.now 673 }
    ensures value { result ≡ length changes.now.blocks }
    ensures few { result ≤ 673 }
{
    changes.blocks.len() as u64
}

// Makes room on the chip for a unit of these changes.
fn ready<C: Chip>(chip: &mut C, changes: Changes, card: Card) -> Result<Staged, StageError>
    requires listed { IsListed changes 673 }
    requires valid { IsValid (full_card card) }
    ensures cause { HasCauseOf StageError.Failed (C.sees chip.old) (C.sees chip.new) result }
    ensures blocks { IfOk result (λ staged. staged.blocks ≡ changes.blocks) }
    ensures octets { IfOk result (λ staged. staged.octets ≡ changes.octets) }
    ensures card { IfOk result (λ staged. staged.card ≡ full_card card) }
    ensures room { IfOk result (λ staged. HasRoom staged (C.sees chip.new)) }
    ensures told { IfTold (C.sees chip.old) (Readies result (C.sees chip.old) (C.sees chip.new)) }
{
    let count = count_of(&changes);
    match chip.prepare(2 * count + 8, 514 * count + 4) {
        Ok(()) => Ok(Staged {
            blocks: changes.blocks,
            octets: changes.octets,
            card,
        }),
        Err(_no_memory) => Err(StageError::NoMemory),
    }
}

/// Finds the blocks that change where a new card takes the place of the old one, and makes room on
/// the chip. It writes nothing. It reads the front of each result slot, the blocks of the fields,
/// and the blocks that the new results take.
///
/// A pending result keeps its slot. Where one result is gone and one came, this one takes its slot;
/// each other new result takes the lowest free slot.
pub fn stage<C: Chip>(
    alloc: Global,
    chip: &mut C,
    old: &Card,
    new: Card,
) -> Result<Staged, StageError>
    requires settled { IfTold (C.sees chip.old)
        (IsSettled (full_card old.now) (C.sees chip.old)) }
    requires valid { IsValid (full_card new) }
    ensures cause { HasCauseOf StageError.Failed (C.sees chip.old) (C.sees chip.new) result }
    ensures card { IfOk result (λ staged. staged.card ≡ full_card new) }
    ensures room { IfOk result (λ staged. HasRoom staged (C.sees chip.new)) }
    ensures staged { IfOk result
        (λ staged. IfTold (C.sees chip.new) (IsStagedOn staged (C.sees chip.new))) }
    ensures told { IfTold (C.sees chip.old)
        (Stages (full_card old.now) result (C.sees chip.old) (C.sees chip.new)) }
{
    let _old = old;
    match changes_to(alloc, chip, &new) {
        Ok(changes) => ready(chip, changes, new),
        Err(error) => Err(error),
    }
}

impl Staged {
    /// Writes the unit: the blocks that change, and no other. It takes no memory. After it one
    /// spare call is left, for `answer`. Where nothing changes it makes no call of the chip.
    pub fn commit<C: Chip>(self, chip: &mut C) -> Result<Card, Failed>
        requires room { HasRoom self (C.sees chip.old) }
        requires staged { IfTold (C.sees chip.old) (IsStagedOn self (C.sees chip.old)) }
        ensures cause { HasCause (C.sees chip.old) (C.sees chip.new) result }
        ensures spare { TakesAtMost (2 * length self.blocks + 7) (514 * length self.blocks + 4)
            (C.sees chip.old) (C.sees chip.new) }
        ensures least { OnOk result (IfTold (C.sees chip.old)
            (let m = count_changed (C.sees chip.old) (C.sees chip.new) in
            TakesAtMost (2 * m + 7) (514 * m + 4) (C.sees chip.old) (C.sees chip.new))) }
        ensures room { OnOk result (1 ≤ (C.sees chip.new).spare.calls) }
        ensures still { self.blocks ≡ [] → IsOk result × (chip.new ≡ chip.old) }
        ensures card { IfOk result (λ card. full_card card ≡ self.card) }
        ensures told { IfTold (C.sees chip.old) ((c : FullCard) → IsSettled c (C.sees chip.old)
            → Commits c self (is_ok result) (C.sees chip.old) (C.sees chip.new)) }
    {
        if self.blocks.is_empty() {
            return Ok(self.card);
        }
        let octets = self.octets;
        match rewrite(chip, self.blocks, octets.as_slice()) {
            Ok(()) => Ok(self.card),
            Err(failed) => Err(failed),
        }
    }
}
