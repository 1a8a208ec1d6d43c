//! Executes the profile operations of a package on a profile table, in one pass.
//!
//! SGP.32 has a package executed in order until an operation isn't done. Whether a rollback is
//! armed is defined by looking back at what was done; here one flag is kept.
#![tactic(auto)]

mod executor;
mod operation;

pub use executor::{PsmoDone, run};

#[cfg(test)]
mod tests;
