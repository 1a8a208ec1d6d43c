//! Finding the home blocks that change.

ghost use Rattle.std.specs.Prelude.{◌≡◌, ◌≤◌, ◌+◌, ◌*◌, ◌<◌, ◌∷◌, ◌++◌, [], ℕ};
ghost use Rattle.std.specs.Prelude.{length, take, drop, true, false, OnOk, OnErr, Err};
ghost use Rattle.chip_port.specs.Rules.{IfTold, Takes};
ghost use Rattle.undo_journal.specs.Home.{home_in, same_octets};
ghost use Rattle.card_store.specs.Looking.{HasCauseOf};
ghost use Rattle.card_store.specs.Comparing.{Tries, Lists, Compared};

use crate::ends::StageError;
use crate::reading::read_block;
use chip_port::Chip;
use iot_bytes::Row;
use std::alloc::Global;
use undo_journal::BLOCK;

/// The blocks that change, in rising order, and their new octets, one block after the other.
#[derive(Debug, Drop)]
pub(crate) struct Changes {
    pub(crate) blocks: Row<u16>,
    pub(crate) octets: Row<u8>,
}

impl Changes {
    /// No block.
    pub(crate) fn none(alloc: Global) -> Changes
        ensures blocks { result.blocks ≡ [] }
        ensures octets { result.octets ≡ [] }
    {
        Changes {
            blocks: Row::new(alloc),
            octets: Row::new(alloc),
        }
    }

    // One block more.
    fn add(&mut self, block: u16, octets: &[u8; 256]) -> Result<(), StageError>
        ensures blocks { OnOk result (self.new.blocks ≡ self.old.blocks ++ block ∷ []) }
        ensures octets { OnOk result (self.new.octets ≡ self.old.octets ++ octets.now) }
        ensures err { OnErr result (result ≡ Err StageError.NoMemory) }
    {
        if self.blocks.push(block).is_err() || self.octets.append(octets).is_err() {
            return Err(StageError::NoMemory);
        }
        Ok(())
    }
}

// Whether a block begins with these octets.
fn begins(block: &[u8; 256], piece: &[u8]) -> bool
    requires { length piece.now ≤ 256 }
    ensures { result ≡ same_octets (take (length piece.now) block.now) piece.now }
{
    &block[..piece.len()] == piece
}

// The block with these octets at its front.
fn with_front(mut block: [u8; 256], piece: &[u8]) -> [u8; 256]
    requires { length piece.now ≤ 256 }
    ensures { result ≡ piece.now ++ drop (length piece.now) block }
{
    block[..piece.len()].copy_from_slice(piece);
    block
}

// Adds the block where it doesn't begin with these octets.
fn add_changed(
    changes: &mut Changes,
    block: u16,
    found: [u8; 256],
    piece: &[u8],
) -> Result<(), StageError>
    requires { length piece.now ≤ 256 }
    ensures same { same_octets (take (length piece.now) found) piece.now ≡ true
        → OnOk result (changes.new ≡ changes.old) }
    ensures blocks { same_octets (take (length piece.now) found) piece.now ≡ false
        → OnOk result (changes.new.blocks ≡ changes.old.blocks ++ block ∷ []) }
    ensures octets { same_octets (take (length piece.now) found) piece.now ≡ false
        → OnOk result (changes.new.octets
        ≡ changes.old.octets ++ (piece.now ++ drop (length piece.now) found)) }
    ensures err { OnErr result (result ≡ Err StageError.NoMemory) }
{
    if begins(&found, piece) {
        return Ok(());
    }
    changes.add(block, &with_front(found, piece))
}

// Compares the front of one home block with these octets.
fn compare_block<C: Chip>(
    chip: &mut C,
    changes: &mut Changes,
    block: u16,
    piece: &[u8],
) -> Result<(), StageError>
    requires block { block < 673 }
    requires few { length piece.now ≤ 256 }
    ensures cause { HasCauseOf StageError.Failed (C.sees chip.old) (C.sees chip.new) result }
    ensures spare { Takes 0 0 (C.sees chip.old) (C.sees chip.new) }
    ensures tries { IfTold (C.sees chip.old) (Tries 1 result (C.sees chip.old) (C.sees chip.new)) }
    ensures listed { OnOk result (Lists block (block + 1) changes.old changes.new) }
    ensures told { OnOk result (IfTold (C.sees chip.old) (Compared block (block + 1) piece.now
        changes.old changes.new (home_in (C.sees chip.old).reads))) }
{
    match read_block(chip, block) {
        Ok(found) => add_changed(changes, block, found, piece),
        Err(_failed) => Err(StageError::Failed),
    }
}

// The octets of one block, or those that are left.
fn piece_of(octets: &[u8], at: usize) -> &[u8]
    requires { 256 * at < length octets.now }
    ensures piece { result.now ≡ take 256 (drop (256 * at) octets.now) }
    ensures few { length result.now ≤ 256 }
{
    let from = BLOCK * at;
    if octets.len() - from <= BLOCK {
        &octets[from..]
    } else {
        &octets[from..from + BLOCK]
    }
}

/// Compares these octets with what the chip has from a home block on, block by block.
pub(crate) fn compare<C: Chip>(
    chip: &mut C,
    changes: &mut Changes,
    first: u16,
    octets: &[u8],
) -> Result<(), StageError>
    requires inside { 256 * first + length octets.now ≤ 172288 }
    requires few { length octets.now ≤ 18432 }
    ensures cause { HasCauseOf StageError.Failed (C.sees chip.old) (C.sees chip.new) result }
    ensures spare { Takes 0 0 (C.sees chip.old) (C.sees chip.new) }
    ensures tries { IfTold (C.sees chip.old) (Tries 72 result (C.sees chip.old) (C.sees chip.new)) }
    ensures listed { OnOk result ((end : ℕ) → 256 * first + length octets.now ≤ 256 * end
        → Lists first end changes.old changes.new) }
    ensures told { OnOk result (IfTold (C.sees chip.old) ((end : ℕ)
        → 256 * first + length octets.now ≤ 256 * end
        → Compared first end octets.now changes.old changes.new
        (home_in (C.sees chip.old).reads))) }
{
    let mut at = 0;
    while BLOCK * at < octets.len() {
        match compare_block(chip, changes, first + at as u16, piece_of(octets, at)) {
            Ok(()) => {}
            Err(error) => return Err(error),
        }
        at += 1;
    }
    Ok(())
}
