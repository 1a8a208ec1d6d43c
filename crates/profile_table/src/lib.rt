//! The card's profile table: a list of profiles with distinct ICCIDs, at most 16 of them and at
//! most one enabled, with the profile state operations of SGP.32 on it.
//!
//! Each operation writes the list in place, so that none of them takes memory.
#![tactic(auto)]

mod ranging;
mod rows;
mod table;

pub use table::Table;

#[cfg(test)]
mod tests;
