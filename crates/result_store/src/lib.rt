//! The result store: the eUICC Package Results (SGP.32) that a card keeps until it is told that
//! their manager has recorded them.
//!
//! At most 8 results are pending, in rising sequence numbers. Their memory is taken when the store
//! is made, so that an accepted package, a rollback and a removal take none here.
#![tactic(auto)]

mod laws;
mod places;
mod store;

pub use laws::{kept_until_removed, numbers_rise, results_stand, stays_a_store};
pub use store::{RemoveEnd, Store};

#[cfg(test)]
mod tests;
