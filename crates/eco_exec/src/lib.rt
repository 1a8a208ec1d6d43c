//! Executes the eIM Configuration Operations of an eUICC Package (SGP.32) on a card's manager
//! table.
//!
//! They are executed in order, and the first that isn't done is the last. A manager may delete
//! itself: the rest of its package is executed, and so it is where no manager is left.
#![tactic(auto)]

mod laws;
mod running;

pub use laws::packages_give_new_associations;
pub use running::{EcoDone, run};

#[cfg(test)]
mod tests;
