//! The undo journal of a memory chip: a unit of writes to the home blocks is there whole or not at
//! all, whenever the power fails.
//!
//! [`keep_old`] copies the blocks that are to change, [`Recorded::open_gate`] makes the copies
//! count, [`Opened::write_home`] writes the blocks in place, and [`Opened::close_gate`] makes them
//! count. [`recover`] puts the copies back where a cut left the gate open. docs/CHIP.md tells the
//! steps, and what a cut at each of them leaves.
#![tactic(auto)]

mod directory;
mod gate;
mod keep;
mod laws;
mod layout;
mod recovery;
mod states;

pub use laws::{blocks_apart_stay, blocks_are_put_back, blocks_not_kept_stay};
pub use layout::{BLOCK, BLOCKS, GATE, HOME, HOME_SIZE, MAGIC, home_at};
pub use recovery::{RecoverEnd, recover};
pub use states::{Opened, Recorded, keep_old};

#[cfg(test)]
mod tests;
