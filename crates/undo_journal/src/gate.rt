//! The gate: the one octet that says which blocks count.

ghost use Rattle.std.specs.Prelude.{◌≤◌, List, ℕ, is_ok};
ghost use Rattle.chip_port.specs.Rules.{HasCause, IfTold};
ghost use Rattle.undo_journal.specs.Home.{AreBlocks};
ghost use Rattle.undo_journal.specs.States.{EachOf, IsRecorded, IsOpenOver, TakesAtMost, OpensGate};
ghost use Rattle.undo_journal.specs.States.{ClosesGate};

use crate::layout::{CLOSED, GATE, OPEN};
use chip_port::{Chip, Failed};

/// Writes the octet that opens the gate, and syncs it.
pub(crate) fn raise<C: Chip>(chip: &mut C) -> Result<(), Failed>
    requires calls { 2 ≤ (C.sees chip.old).spare.calls }
    requires octets { 1 ≤ (C.sees chip.old).spare.octets }
    ensures cause { HasCause (C.sees chip.old) (C.sees chip.new) result }
    ensures spare { TakesAtMost 2 1 (C.sees chip.old) (C.sees chip.new) }
    ensures told { IfTold (C.sees chip.old)
        ((blocks before : List ℕ) → AreBlocks blocks → EachOf (C.sees chip.old).leaves
        (IsRecorded blocks before) → OpensGate blocks before (is_ok result) (C.sees chip.old)
        (C.sees chip.new)) }
{
    chip.write_at(GATE, &[OPEN])?;
    chip.sync()
}

/// Syncs the home blocks, writes the octet that closes the gate, and syncs it.
pub(crate) fn close<C: Chip>(chip: &mut C) -> Result<(), Failed>
    requires calls { 3 ≤ (C.sees chip.old).spare.calls }
    requires octets { 1 ≤ (C.sees chip.old).spare.octets }
    ensures cause { HasCause (C.sees chip.old) (C.sees chip.new) result }
    ensures spare { TakesAtMost 3 1 (C.sees chip.old) (C.sees chip.new) }
    ensures told { IfTold (C.sees chip.old)
        ((blocks copies before : List ℕ) → AreBlocks blocks → EachOf (C.sees chip.old).leaves
        (IsOpenOver blocks copies before) → ClosesGate before (is_ok result) (C.sees chip.old)
        (C.sees chip.new)) }
{
    match chip.sync() {
        Ok(()) => {
            chip.write_at(GATE, &[CLOSED])?;
            chip.sync()
        }
        Err(failed) => Err(failed),
    }
}
