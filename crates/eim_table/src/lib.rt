//! The manager table: the eIMs that a card is associated with (SGP.32, eIM Configuration Data) and
//! the association that the next one gets.
//!
//! A number is never given out twice: an eIM that was deleted and is added again has a new one, so
//! no package made for the former association is taken. The memory for 8 entries is taken when the
//! table is made, so no change of it wants memory.
#![tactic(auto)]

mod entries;
mod laws;
mod table;

pub use laws::{associations_are_new, eims_stand};
pub use table::{AddEnd, Eims};

#[cfg(test)]
mod tests;
