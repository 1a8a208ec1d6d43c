//! One permitted rollback (ES10b.ProfileRollback of SGP.32): the former profile alone is enabled,
//! and the result of the package that armed the rollback is marked under a new number. It takes no
//! memory.
#![tactic(auto)]

mod laws;
mod rolling;

pub use laws::armed_may_roll;
pub use rolling::{Rolled, permitted, roll};

#[cfg(test)]
mod tests;
