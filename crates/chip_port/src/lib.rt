//! A memory chip: what each call does, what a power cut leaves, and a chip in memory for tests.
//!
//! [`Chip`] and [`Bench`] say what a chip may do at any moment. [`MemChip`] does it in memory, with
//! planned cuts and failing calls. docs/CHIP.md tells the rules.
#![tactic(auto)]

mod chip;
mod counts;
mod laws;
mod medium;
mod mem;

pub use chip::{Bench, CHIP_SIZE, Chip, Tear};
pub use iot_bytes::{Failed, NoMemory};
pub use laws::what_lies_apart_stays;
pub use mem::MemChip;

#[cfg(test)]
mod tests;
