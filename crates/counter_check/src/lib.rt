//! The checks of a load, in their order (SGP.32, the verification of an eUICC Package): its length
//! and its grammar as it comes in, then its eIM, the verdict on its signature, its EID, its
//! association, its counter, and whether a result has room.
//!
//! A [`Checked`] is the proof that a package passed them all: nothing else makes one.
#![tactic(auto)]

mod checking;
mod laws;
mod received;

pub use checking::Checked;
pub use laws::loads_are_accepted_exactly;
pub use received::{ParseEnd, Received};

#[cfg(test)]
mod tests;
