//! A card alone: it is opened on its chip, and answers the frames of a source.
//!
//! [`run_card`]'s clauses tell what was read and sent, and that the chip holds the history of the
//! frames that were answered, with a mark for each answer that left the card. docs/PROOF.md tells
//! them in words.
#![tactic(auto)]

mod card;
mod laws;
mod run;

pub use laws::{commands_are_replied_to, packages_are_checked, packages_take_effect_once};
pub use run::run_card;

#[cfg(test)]
mod tests;
