//! What holds of the home blocks, as functions that do nothing: their clauses are the laws.

ghost use Rattle.std.specs.Prelude.{◌≡◌, ◌<◌, ◌≤◌, ◌+◌, ◌*◌, List, ℕ, length, get_or};
ghost use Rattle.chip_port.specs.Rules.{Torn};
ghost use Rattle.undo_journal.specs.Home.{AreBlocks, block_of, home_in, put_back};
ghost use Rattle.undo_journal.specs.States.{Has, IsOpened};

use crate::layout::{BLOCK, HOME, HOME_SIZE};

/// A home block that wasn't kept is as before in every image that a cut leaves while the gate is
/// open.
pub fn blocks_not_kept_stay()
    ensures { (blocks before image : List ℕ) (block : ℕ) → AreBlocks blocks
        → IsOpened blocks before image → ¬ Has block blocks
        → block_of (home_in image) block ≡ block_of before block }
{}

/// Putting back gives each block of the list its old octets, and leaves every other block.
pub fn blocks_are_put_back()
    ensures listed { (blocks old home : List ℕ) (k : ℕ) → AreBlocks blocks → k < length blocks
        → length home ≡ HOME_SIZE → BLOCK * length blocks ≤ length old
        → block_of (put_back blocks old home) (get_or blocks k 0) ≡ block_of old k }
    ensures others { (blocks old home : List ℕ) (block : ℕ) → AreBlocks blocks → ¬ Has block blocks
        → length home ≡ HOME_SIZE → BLOCK * length blocks ≤ length old
        → block_of (put_back blocks old home) block ≡ block_of home block }
{}

/// A home block apart from the one that a write changed, or that a cut tore, is as before.
pub fn blocks_apart_stay()
    ensures { (block other : ℕ) (old new : List ℕ) → Torn (HOME + BLOCK * block) BLOCK old new
        → ¬ (other ≡ block) → block_of (home_in new) other ≡ block_of (home_in old) other }
{}
