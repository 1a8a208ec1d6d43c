//! Keeping old blocks behind the closed gate.

ghost use Rattle.std.specs.Prelude.{◌+◌, ◌*◌, ◌<◌, ◌≤◌, is_ok, length};
ghost use Rattle.chip_port.specs.Rules.{HasCause, IfTold};
ghost use Rattle.undo_journal.specs.Home.{AreBlocks};
ghost use Rattle.undo_journal.specs.States.{IsIdle, TakesAtMost};
ghost use Rattle.undo_journal.specs.Steps.{Copies, WritesDirectory, CopiesOld};

use crate::directory::spell;
use crate::layout::{BLOCK, DIRECTORY, home_at, old_at};
use chip_port::{Chip, Failed};

/// Copies one block from one place to another.
pub(crate) fn copy_block<C: Chip>(chip: &mut C, from: u64, to: u64) -> Result<(), Failed>
    requires calls { 1 ≤ (C.sees chip.old).spare.calls }
    requires octets { 256 ≤ (C.sees chip.old).spare.octets }
    requires from { from + 256 ≤ 346624 }
    requires to { to + 256 ≤ 346624 }
    ensures cause { HasCause (C.sees chip.old) (C.sees chip.new) result }
    ensures spare { TakesAtMost 1 256 (C.sees chip.old) (C.sees chip.new) }
    ensures told { IfTold (C.sees chip.old)
        (Copies from to (is_ok result) (C.sees chip.old) (C.sees chip.new)) }
{
    let mut octets = [0; BLOCK];
    chip.read(from, &mut octets)?;
    chip.write_at(to, &octets)
}

/// Copies a home block to an old block's place.
fn keep_block<C: Chip>(chip: &mut C, entry: usize, block: u16) -> Result<(), Failed>
    requires calls { 1 ≤ (C.sees chip.old).spare.calls }
    requires octets { 256 ≤ (C.sees chip.old).spare.octets }
    requires entry { entry < 673 }
    requires block { block < 673 }
    ensures cause { HasCause (C.sees chip.old) (C.sees chip.new) result }
    ensures spare { TakesAtMost 1 256 (C.sees chip.old) (C.sees chip.new) }
    ensures told { IfTold (C.sees chip.old)
        (Copies (174336 + 256 * block) (2048 + 256 * entry) (is_ok result) (C.sees chip.old)
        (C.sees chip.new)) }
{
    copy_block(chip, home_at(block), old_at(entry))
}

/// Writes the directory of these blocks.
fn write_directory<C: Chip>(chip: &mut C, blocks: &[u16]) -> Result<(), Failed>
    requires calls { 1 ≤ (C.sees chip.old).spare.calls }
    requires octets { 2 + 2 * length blocks.now ≤ (C.sees chip.old).spare.octets }
    requires few { length blocks.now ≤ 673 }
    ensures cause { HasCause (C.sees chip.old) (C.sees chip.new) result }
    ensures spare { TakesAtMost 1 (2 + 2 * length blocks.now) (C.sees chip.old) (C.sees chip.new) }
    ensures told { IfTold (C.sees chip.old)
        (WritesDirectory blocks.now (is_ok result) (C.sees chip.old) (C.sees chip.new)) }
{
    let directory = spell(blocks);
    chip.write_at(DIRECTORY, &directory[..2 + 2 * blocks.len()])
}

/// Writes the directory and copies each block.
pub(crate) fn copy_old<C: Chip>(chip: &mut C, blocks: &[u16]) -> Result<(), Failed>
    requires calls { length blocks.now + 1 ≤ (C.sees chip.old).spare.calls }
    requires octets { 258 * length blocks.now + 2 ≤ (C.sees chip.old).spare.octets }
    requires blocks { AreBlocks blocks.now }
    requires idle { IfTold (C.sees chip.old) (IsIdle (C.sees chip.old)) }
    ensures cause { HasCause (C.sees chip.old) (C.sees chip.new) result }
    ensures spare { TakesAtMost (length blocks.now + 1) (258 * length blocks.now + 2)
        (C.sees chip.old) (C.sees chip.new) }
    ensures told { IfTold (C.sees chip.old)
        (CopiesOld blocks.now (is_ok result) (C.sees chip.old) (C.sees chip.new)) }
{
    write_directory(chip, blocks)?;
    for (entry, block) in blocks.iter().enumerate() {
        keep_block(chip, entry, *block)?;
    }
    Ok(())
}
