//! A manager's queue for one card (SGP.32, eIM): it orders packages, answers the assistant, and
//! keeps one record for each package whose result it heard of. The rules are told in
//! `docs/ESIPA.md`.
#![tactic(auto)]

mod orders;
mod places;
mod queue;
mod records;

pub use orders::Order;
pub use queue::Eim;

#[cfg(test)]
mod tests;
