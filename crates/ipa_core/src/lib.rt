//! The assistant on the device (SGP.32, IPA): it carries messages between managers and the card,
//! and asks for a rollback at each third failed probe. The rules are told in `docs/ESIPA.md`.
#![tactic(auto)]

mod assistant;
mod posts;

pub use assistant::Ipa;

#[cfg(test)]
mod tests;
