//! The card (eUICC) on its chip: every command of ES10b is answered by one step, which is one unit
//! of the card's history, or none.
//!
//! Whatever a power cut leaves at any moment of a step stands for the card before it or the one
//! after it. docs/CHIP.md tells what each moment leaves.
#![tactic(auto)]

mod answering;
mod card;
mod ends;
mod laws;

pub use card::EuiccCard;
pub use card_store::{Card, MakeError};
pub use ends::{OpenError, SettleEnd, StepEnd};
pub use laws::{looks_are_held, openings_are_held, steps_are_held};

#[cfg(test)]
mod tests;
