//! The card of a world on its test bench: commands, planned cuts and power cycles, over whatever a
//! cut left.
//!
//! A lit card's chip is settled on it. What a dark card's chip reads stands for the card's history,
//! with or without the unit that was in progress as the power went. `docs/WORLD.md` tells it.
#![tactic(auto)]

mod card;
mod ends;

pub use card::BenchCard;
pub use card_store::{Card, MakeError};
pub use ends::BootEnd;
pub use euicc_core::StepEnd;
