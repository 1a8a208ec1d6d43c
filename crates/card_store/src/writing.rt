//! Home blocks that are written behind the open gate.

ghost use Rattle.std.specs.Prelude.{◌≡◌, ◌≤◌, ◌+◌, ◌*◌, ℕ, List, is_ok, length, take, drop, OnOk};
ghost use Rattle.chip_port.specs.Rules.{HasCause, IfTold};
ghost use Rattle.undo_journal.specs.Home.{AreBlocks};
ghost use Rattle.undo_journal.specs.States.{EachOf, IsIdle, IsOpened, OpenedOn, TakesAtMost};
ghost use Rattle.card_store.specs.Staging.{WritesBlocks, Rewrites};

use chip_port::{Chip, Failed};
use iot_bytes::Row;
use undo_journal::{BLOCK, Opened, keep_old};

// One block of the octets.
fn block_of(octets: &[u8], at: usize) -> [u8; 256]
    requires { 256 * at + 256 ≤ length octets.now }
    ensures { result ≡ take 256 (drop (256 * at) octets.now) }
{
    let mut block = [0; BLOCK];
    block.copy_from_slice(&octets[BLOCK * at..BLOCK * at + BLOCK]);
    block
}

// Writes the blocks, whose octets stand one block after the other.
fn write_blocks<C: Chip>(
    chip: &mut C,
    opened: &Opened,
    blocks: &[u16],
    octets: &[u8],
) -> Result<(), Failed>
    requires calls { length blocks.now ≤ (C.sees chip.old).spare.calls }
    requires spare { 256 * length blocks.now ≤ (C.sees chip.old).spare.octets }
    requires blocks { AreBlocks blocks.now }
    requires same { blocks.now ≡ opened.now }
    requires size { length octets.now ≡ 256 * length blocks.now }
    requires opened { IfTold (C.sees chip.old) (OpenedOn opened.now (C.sees chip.old)) }
    ensures cause { HasCause (C.sees chip.old) (C.sees chip.new) result }
    ensures spare { TakesAtMost (length blocks.now) (256 * length blocks.now)
        (C.sees chip.old) (C.sees chip.new) }
    ensures opened { OnOk result
        (IfTold (C.sees chip.new) (OpenedOn opened.now (C.sees chip.new))) }
    ensures told { IfTold (C.sees chip.old) ((before : List ℕ)
        → EachOf (C.sees chip.old).leaves (IsOpened opened.now before)
        → WritesBlocks opened.now before blocks.now octets.now (is_ok result)
        (C.sees chip.old) (C.sees chip.new)) }
{
    for at in 0..blocks.len() {
        opened.write_home(chip, blocks[at], &block_of(octets, at))?;
    }
    Ok(())
}

/// Writes these blocks as one unit of the journal.
pub(crate) fn rewrite<C: Chip>(chip: &mut C, blocks: Row<u16>, octets: &[u8]) -> Result<(), Failed>
    requires calls { 2 * length blocks + 7 ≤ (C.sees chip.old).spare.calls }
    requires spare { 514 * length blocks + 4 ≤ (C.sees chip.old).spare.octets }
    requires blocks { AreBlocks blocks }
    requires size { length octets.now ≡ 256 * length blocks }
    requires idle { IfTold (C.sees chip.old) (IsIdle (C.sees chip.old)) }
    ensures cause { HasCause (C.sees chip.old) (C.sees chip.new) result }
    ensures spare { TakesAtMost (2 * length blocks + 7) (514 * length blocks + 4)
        (C.sees chip.old) (C.sees chip.new) }
    ensures told { IfTold (C.sees chip.old)
        (Rewrites blocks octets.now (is_ok result) (C.sees chip.old) (C.sees chip.new)) }
{
    let recorded = keep_old(chip, blocks)?;
    let opened = recorded.open_gate(chip)?;
    write_blocks(chip, &opened, opened.blocks(), octets)?;
    opened.close_gate(chip)
}
