//! Recovery: whatever a cut left, the chip is brought to where it is idle, with the home that it
//! had.

ghost use Rattle.std.specs.Prelude.{◌≡◌, ◌≤◌, ◌<◌, ◌+◌, ◌*◌, length, is_ok, OnOk, IfOk, List, ℕ};
ghost use Rattle.std.specs.Prelude.{true};
ghost use Rattle.chip_port.specs.Rules.{IfTold, HasCause};
ghost use Rattle.undo_journal.specs.Home.{same_octets, magic, is_well_formed, entries};
ghost use Rattle.undo_journal.specs.States.{EachOf, IsIdle, IsOpenOver, TakesAtMost};
ghost use Rattle.undo_journal.specs.Recover.{HasCauseOfEnd, Recovers};
ghost use Rattle.undo_journal.specs.Steps.{Copies, Begins, PutsBack, IsFound, RollsBack};
ghost use Rattle.undo_journal.specs.declared.recovery.RecoverEnd.TheVariants.{Failed};

use crate::directory::{count, entry, is_fit};
use crate::gate::close;
use crate::keep::copy_block;
use crate::layout::{DIRECTORY, DIRECTORY_SIZE, MAGIC, OPEN, home_at, old_at};
use chip_port::Chip;

/// How a recovery can end without an idle chip.
#[derive(Clone, Copy, Debug, PartialEq, Eq)]
pub enum RecoverEnd {
    /// A call of the chip failed. Another recovery finds the same home.
    Failed,
    /// The chip holds no home: there is no magic, or the gate is open and the directory isn't well
    /// formed. Nothing was written.
    Foreign,
    /// Memory ran out, and the chip is as before.
    NoMemory,
}

impl From<chip_port::Failed> for RecoverEnd {
    ghost from_gives = { λ _ e. e ≡ Failed };

    fn from(_: chip_port::Failed) -> Self {
        RecoverEnd::Failed
    }
}

/// The calls that a recovery may take: three syncs, 673 blocks, the gate, and an answer after it.
const CALLS: u64 = 678;

/// The octets that a recovery may write: 673 blocks, and the gate.
const OCTETS: u64 = 172_289;

fn is_magic(front: &[u8]) -> bool
    ensures { result ≡ same_octets front.now magic }
{
    front == MAGIC.as_slice()
}

/// Makes room, syncs, looks for the magic, and tells whether the gate is open.
fn begin<C: Chip>(chip: &mut C) -> Result<bool, RecoverEnd>
    ensures cause { HasCauseOfEnd (C.sees chip.old) (C.sees chip.new) result }
    ensures room { OnOk result ((677 ≤ (C.sees chip.new).spare.calls)
        × (172289 ≤ (C.sees chip.new).spare.octets)) }
    ensures told { IfTold (C.sees chip.old) (Begins result (C.sees chip.old) (C.sees chip.new)) }
{
    if chip.prepare(CALLS, OCTETS).is_err() {
        return Err(RecoverEnd::NoMemory);
    }
    chip.sync()?;
    let mut front = [0; 257];
    chip.read(0, &mut front)?;
    if !is_magic(&front[..8]) {
        return Err(RecoverEnd::Foreign);
    }
    Ok(front[256] == OPEN)
}

/// Puts one old block back.
fn restore<C: Chip>(chip: &mut C, entry: usize, block: u16) -> Result<(), chip_port::Failed>
    requires calls { 1 ≤ (C.sees chip.old).spare.calls }
    requires octets { 256 ≤ (C.sees chip.old).spare.octets }
    requires entry { entry < 673 }
    requires block { block < 673 }
    ensures cause { HasCause (C.sees chip.old) (C.sees chip.new) result }
    ensures spare { TakesAtMost 1 256 (C.sees chip.old) (C.sees chip.new) }
    ensures told { IfTold (C.sees chip.old)
        (Copies (2048 + 256 * entry) (174336 + 256 * block) (is_ok result) (C.sees chip.old)
        (C.sees chip.new)) }
{
    copy_block(chip, old_at(entry), home_at(block))
}

/// Puts back each old block that the directory lists.
fn put_back<C: Chip>(chip: &mut C, directory: &[u8]) -> Result<(), chip_port::Failed>
    requires calls { 673 ≤ (C.sees chip.old).spare.calls }
    requires octets { 172288 ≤ (C.sees chip.old).spare.octets }
    requires size { length directory.now ≡ 1536 }
    requires fit { is_well_formed directory.now ≡ true }
    ensures cause { HasCause (C.sees chip.old) (C.sees chip.new) result }
    ensures spare { TakesAtMost 673 172288 (C.sees chip.old) (C.sees chip.new) }
    ensures told { IfTold (C.sees chip.old)
        ((copies before : List ℕ) → EachOf (C.sees chip.old).leaves
        (IsOpenOver (entries directory.now) copies before) → PutsBack directory.now copies before
        (is_ok result) (C.sees chip.old) (C.sees chip.new)) }
{
    for at in 0..count(directory) {
        restore(chip, at, entry(directory, at))?;
    }
    Ok(())
}

/// Puts back the home behind the open gate, and closes the gate.
fn roll_back<C: Chip>(chip: &mut C) -> Result<(), RecoverEnd>
    requires calls { 677 ≤ (C.sees chip.old).spare.calls }
    requires octets { 172289 ≤ (C.sees chip.old).spare.octets }
    requires found { IfTold (C.sees chip.old) (IsFound (C.sees chip.old)) }
    ensures cause { HasCauseOfEnd (C.sees chip.old) (C.sees chip.new) result }
    ensures room { OnOk result (1 ≤ (C.sees chip.new).spare.calls) }
    ensures told { IfTold (C.sees chip.old) (RollsBack result (C.sees chip.old) (C.sees chip.new)) }
{
    let mut directory = [0; DIRECTORY_SIZE];
    chip.read(DIRECTORY, &mut directory)?;
    if !is_fit(&directory) {
        return Err(RecoverEnd::Foreign);
    }
    put_back(chip, &directory)?;
    close(chip)?;
    Ok(())
}

/// Brings a chip to where it is idle, with the home that it had, whatever a cut left. It may itself
/// be cut, any number of times. After it one spare call is left, for `answer`.
pub fn recover<C: Chip>(chip: &mut C) -> Result<(), RecoverEnd>
    ensures cause { HasCauseOfEnd (C.sees chip.old) (C.sees chip.new) result }
    ensures room { OnOk result (1 ≤ (C.sees chip.new).spare.calls) }
    ensures idle { OnOk result (IfTold (C.sees chip.new) (IsIdle (C.sees chip.new))) }
    ensures told { IfTold (C.sees chip.old) (Recovers result (C.sees chip.old) (C.sees chip.new)) }
{
    match begin(chip) {
        Ok(true) => roll_back(chip),
        Ok(false) => Ok(()),
        Err(end) => Err(end),
    }
}
