//! What a memory chip does at each call, and what a power cut at any moment may leave of it.

ghost use Rattle.std.specs.Prelude.{◌≡◌, ◌+◌, ◌≤◌, List, ℕ, length, OnOk, OnErr};
ghost use Rattle.chip_port.specs.Seen.{Seen, plan_of, no_plan};
ghost use Rattle.chip_port.specs.declared.chip.TheConstants.{CHIP_SIZE};
ghost use Rattle.chip_port.specs.Rules.{HasCause, Takes, Called, IfTold, ReadOut, Written, Synced};
ghost use Rattle.chip_port.specs.Rules.{Answered, Untouched, Prepared, Quiet, Woken, Sound};

use iot_bytes::{Failed, NoMemory};

/// How many octets each chip has.
pub const CHIP_SIZE: u64 = 346_624;

/// What a planned cut leaves of the octets that aren't synced.
#[derive(Clone, Copy, Debug, PartialEq, Eq)]
pub enum Tear {
    /// The content of the last sync.
    Old,
    /// All that was written, by the cut write too.
    New,
    /// All earlier writes, and the first half of the cut write, rounded down.
    Half,
    /// A5 in each octet of each range that isn't synced, that of the cut write too.
    Junk,
}

/// A memory chip whose writes can be torn by a power cut until they are synced.
///
/// The clauses `told` hold where the chip tells its content, which is fixed when it is made; all
/// others hold of every chip. The rules are told in docs/CHIP.md.
pub trait Chip {
    /// All that a chip shows of itself: its content, the images that a cut may leave, its counts
    /// and its spare room.
    ghost sees: { Self → Seen };

    /// Makes room for so many calls of `write_at`, `sync` and `answer`, and for so many octets in
    /// writes. Nothing else changes.
    fn prepare(&mut self, calls: u64, bytes: u64) -> Result<(), NoMemory>
        ensures room { Prepared calls bytes (sees self.old) (sees self.new) result }
        ensures told { IfTold (sees self.old)
            (Untouched (λ t. t) (sees self.old) (sees self.new)) };

    /// Fills `out` with the octets from `at` on. After a failure its octets aren't known.
    fn read(&mut self, at: u64, out: &mut [u8]) -> Result<(), Failed>
        requires { at + length out.old ≤ CHIP_SIZE }
        ensures cause { HasCause (sees self.old) (sees self.new) result }
        ensures spare { Takes 0 0 (sees self.old) (sees self.new) }
        ensures told { IfTold (sees self.old)
            (ReadOut at out.old out.new (sees self.old) (sees self.new) result) };

    /// Puts the octets in place from `at` on. Until the next sync a cut may leave any octets there,
    /// also where the call fails.
    fn write_at(&mut self, at: u64, bytes: &[u8]) -> Result<(), Failed>
        requires range { at + length bytes.now ≤ CHIP_SIZE }
        requires calls { 1 ≤ (sees self.old).spare.calls }
        requires octets { length bytes.now ≤ (sees self.old).spare.octets }
        ensures cause { HasCause (sees self.old) (sees self.new) result }
        ensures spare { Takes 1 (length bytes.now) (sees self.old) (sees self.new) }
        ensures told { IfTold (sees self.old)
            (Written at bytes.now (sees self.old) (sees self.new) result) };

    /// Makes what was written last. A sync that fails syncs nothing.
    fn sync(&mut self) -> Result<(), Failed>
        requires { 1 ≤ (sees self.old).spare.calls }
        ensures cause { HasCause (sees self.old) (sees self.new) result }
        ensures spare { Takes 1 0 (sees self.old) (sees self.new) }
        ensures told { IfTold (sees self.old) (Synced (sees self.old) (sees self.new) result) };

    /// Marks that a reply, or an answer to reset, has left the card.
    fn answer(&mut self) -> Result<(), Failed>
        requires { 1 ≤ (sees self.old).spare.calls }
        ensures cause { HasCause (sees self.old) (sees self.new) result }
        ensures spare { Takes 1 0 (sees self.old) (sees self.new) }
        ensures told { IfTold (sees self.old) (Answered (sees self.old) (sees self.new) result) };

    /// What holds of every chip that tells its content, at every moment.
    ghost sound: { (s : Self) → IfTold (sees s) (Sound CHIP_SIZE (sees s)) };
}

/// A chip on a test bench, whose power can be cut at a planned call.
pub trait Bench: Chip {
    /// Plans a cut: so many further calls of `read`, `write_at`, `sync` and `answer` pass, and the
    /// next one is the cut. It replaces an earlier plan; for want of memory the plan stays.
    fn plan_cut(&mut self, calls: u32, tear: Tear) -> Result<(), NoMemory>
        ensures quiet { Quiet (Self.sees self.old) (Self.sees self.new) }
        ensures done { OnOk result (IfTold (Self.sees self.old)
            (Untouched (plan_of calls tear) (Self.sees self.old) (Self.sees self.new))) }
        ensures refused { OnErr result
            (IfTold (Self.sees self.old) (Untouched (λ t. t) (Self.sees self.old)
            (Self.sees self.new))) };

    /// Removes the plan. A cut that came stays.
    fn drop_plan(&mut self)
        ensures quiet { Quiet (Self.sees self.old) (Self.sees self.new) }
        ensures told { IfTold (Self.sees self.old)
            (Untouched no_plan (Self.sees self.old) (Self.sees self.new)) };

    /// A power cycle: the content is one of the images that a cut could leave, and from then on the
    /// only one. The plan stays.
    fn power_on(&mut self) -> Result<(), Failed>
        ensures cause { HasCause (Self.sees self.old) (Self.sees self.new) result }
        ensures spare { Takes 0 0 (Self.sees self.old) (Self.sees self.new) }
        ensures told { IfTold (Self.sees self.old)
            (Woken (Self.sees self.old) (Self.sees self.new) result) };
}
