//! The small card: the types of eSIM management for IoT devices after SGP.32, the definitions of
//! how the card behaves, and their laws. The rules are told in `docs/CARD.md`.
#![tactic(auto)]

pub mod codes;
mod copies;
mod items;
mod laws;
pub mod limits;
mod numbers;
mod pairs;
mod types;
mod worked;

pub use copies::copy_items;
pub use laws::{
    counters_look_back, first_units_legal, fresh_is_valid, never_returns, one_more_unit,
    pairs_are_tested, pending_results_change, rollback_restores, stays_valid, takes_once,
};
pub use numbers::{Numbered, are_numbered};
pub use pairs::{Apart, are_all_apart};
pub use types::{
    Answer, Armed, Body, Command, Eco, EimEntry, EimLine, Item, Package, PackageResult, Profile,
    Psmo, Refused, Signed,
};
pub use worked::{
    checks_worked, counters_worked, eim_operations_worked, eims_worked, history_worked,
    packages_worked, profile_operations_worked, rollback_worked,
};

#[cfg(test)]
mod tests;
