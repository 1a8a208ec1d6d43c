//! The card on its chip: which card an image stands for, and how one card is replaced by another so
//! that a cut at any moment leaves the one or the other.
//!
//! [`format`] makes a card, [`load`] recovers the chip and reads the card that stands on it.
//! [`stage`] finds the blocks that change, and [`Staged::commit`] writes them as one unit of the
//! journal. docs/CHIP.md tells the steps.
#![tactic(auto)]

mod changes;
mod ends;
mod finding;
mod formatting;
mod laws;
mod reading;
mod seats;
mod staging;
mod writing;

pub use ends::{LoadEnd, MakeError, StageError};
pub use formatting::format;
pub use home_codec::Card;
pub use laws::{an_image_stands_for_one_card, answers_are_held, losses_are_held};
pub use reading::load;
pub use staging::{Staged, stage};

#[cfg(test)]
mod tests;
