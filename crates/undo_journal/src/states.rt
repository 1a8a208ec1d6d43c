//! The states of the journal, each a value that keeps the list of block numbers alone.
//!
//! Between [`keep_old`] and [`Opened::close_gate`] nobody else may use the chip: each call has the
//! fact of its state as its condition. After a failure the chip has to be recovered.

ghost use Rattle.std.specs.Prelude.{◌≡◌, ◌≤◌, ◌+◌, ◌*◌, List, ℕ, is_ok, length, IfOk, OnOk};
ghost use Rattle.chip_port.specs.Rules.{HasCause, IfTold};
ghost use Rattle.undo_journal.specs.Home.{AreBlocks};
ghost use Rattle.undo_journal.specs.States.{Has, EachOf, IsIdle, IsRecorded, IsOpened, RecordedOn};
ghost use Rattle.undo_journal.specs.States.{OpenedOn, TakesAtMost, KeepsOld, OpensGate, WritesHome};
ghost use Rattle.undo_journal.specs.States.{ClosesGate};

use crate::gate::{close, raise};
use crate::keep::copy_old;
use crate::layout::home_at;
use chip_port::{Chip, Failed};
use iot_bytes::Row;
use std::marker::Model;

/// Keeps the octets of these home blocks of an idle chip, behind the closed gate. One block after
/// the other is copied, and the call takes no memory.
pub fn keep_old<C: Chip>(chip: &mut C, blocks: Row<u16>) -> Result<Recorded, Failed>
    requires calls { length blocks + 2 ≤ (C.sees chip.old).spare.calls }
    requires octets { 258 * length blocks + 2 ≤ (C.sees chip.old).spare.octets }
    requires blocks { AreBlocks blocks }
    requires idle { IfTold (C.sees chip.old) (IsIdle (C.sees chip.old)) }
    ensures cause { HasCause (C.sees chip.old) (C.sees chip.new) result }
    ensures spare { TakesAtMost (length blocks + 2) (258 * length blocks + 2) (C.sees chip.old)
        (C.sees chip.new) }
    ensures same { IfOk result (λ recorded. recorded ≡ blocks) }
    ensures recorded { IfOk result
        (λ recorded. IfTold (C.sees chip.new) (RecordedOn recorded (C.sees chip.new))) }
    ensures told { IfTold (C.sees chip.old)
        (KeepsOld blocks (is_ok result) (C.sees chip.old) (C.sees chip.new)) }
{
    copy_old(chip, blocks.as_slice())?;
    match chip.sync() {
        Ok(()) => Ok(Recorded { blocks }),
        Err(failed) => Err(failed),
    }
}

/// The old octets of these blocks are kept, and the gate is closed.
#[derive(Debug, Drop)]
pub struct Recorded {
    blocks: Row<u16>,
}

impl Model for Recorded {
    ghost use Rattle.std.specs.Prelude.{List, ℕ};
    ghost use Rattle.undo_journal.specs.Home.{AreBlocks};

    ghost Value = { List ℕ };

    ghost view = { λ r. r.blocks };

    ghost invariant = { λ r. AreBlocks r.blocks };
}

impl Recorded {
    /// Opens the gate: from now on a recovery puts the kept octets back.
    pub fn open_gate<C: Chip>(self, chip: &mut C) -> Result<Opened, Failed>
        requires calls { 2 ≤ (C.sees chip.old).spare.calls }
        requires octets { 1 ≤ (C.sees chip.old).spare.octets }
        requires recorded { IfTold (C.sees chip.old) (RecordedOn self (C.sees chip.old)) }
        ensures cause { HasCause (C.sees chip.old) (C.sees chip.new) result }
        ensures spare { TakesAtMost 2 1 (C.sees chip.old) (C.sees chip.new) }
        ensures same { IfOk result (λ opened. opened ≡ self) }
        ensures opened { IfOk result (λ opened. IfTold (C.sees chip.new)
            (OpenedOn opened (C.sees chip.new))) }
        ensures told { IfTold (C.sees chip.old)
            ((before : List ℕ) → EachOf (C.sees chip.old).leaves (IsRecorded self before)
            → OpensGate self before (is_ok result) (C.sees chip.old) (C.sees chip.new)) }
    {
        let blocks = self.blocks;
        raise(chip)?;
        Ok(Opened { blocks })
    }
}

/// The gate is open, and the home blocks that were kept may be written.
#[derive(Debug, Drop)]
pub struct Opened {
    blocks: Row<u16>,
}

impl Model for Opened {
    ghost use Rattle.std.specs.Prelude.{List, ℕ};
    ghost use Rattle.undo_journal.specs.Home.{AreBlocks};

    ghost Value = { List ℕ };

    ghost view = { λ r. r.blocks };

    ghost invariant = { λ r. AreBlocks r.blocks };
}

impl Opened {
    /// The blocks that were kept, which may be written, in rising order.
    pub fn blocks(&self) -> &[u16]
        ensures { result.now ≡ self.now }
    {
        self.blocks.as_slice()
    }

    /// Writes a home block that was kept. After a failure what the block reads isn't known.
    pub fn write_home<C: Chip>(
        &self,
        chip: &mut C,
        block: u16,
        bytes: &[u8; 256],
    ) -> Result<(), Failed>
        requires calls { 1 ≤ (C.sees chip.old).spare.calls }
        requires octets { 256 ≤ (C.sees chip.old).spare.octets }
        requires kept { Has block self.now }
        requires opened { IfTold (C.sees chip.old) (OpenedOn self.now (C.sees chip.old)) }
        ensures cause { HasCause (C.sees chip.old) (C.sees chip.new) result }
        ensures spare { TakesAtMost 1 256 (C.sees chip.old) (C.sees chip.new) }
        ensures opened { IfTold (C.sees chip.new) (OpenedOn self.now (C.sees chip.new)) }
        ensures told { IfTold (C.sees chip.old)
            ((before : List ℕ) → EachOf (C.sees chip.old).leaves (IsOpened self.now before)
            → WritesHome self.now before block bytes.now (is_ok result) (C.sees chip.old)
            (C.sees chip.new)) }
    {
        let _blocks = &self.blocks;
        chip.write_at(home_at(block), bytes)
    }

    /// Closes the gate: from now on what was written is the home.
    pub fn close_gate<C: Chip>(self, chip: &mut C) -> Result<(), Failed>
        requires calls { 3 ≤ (C.sees chip.old).spare.calls }
        requires octets { 1 ≤ (C.sees chip.old).spare.octets }
        requires opened { IfTold (C.sees chip.old) (OpenedOn self (C.sees chip.old)) }
        ensures cause { HasCause (C.sees chip.old) (C.sees chip.new) result }
        ensures spare { TakesAtMost 3 1 (C.sees chip.old) (C.sees chip.new) }
        ensures idle { OnOk result (IfTold (C.sees chip.new) (IsIdle (C.sees chip.new))) }
        ensures told { IfTold (C.sees chip.old)
            ((before : List ℕ) → EachOf (C.sees chip.old).leaves (IsOpened self before)
            → ClosesGate before (is_ok result) (C.sees chip.old) (C.sees chip.new)) }
    {
        let _blocks = &self.blocks;
        close(chip)
    }
}
