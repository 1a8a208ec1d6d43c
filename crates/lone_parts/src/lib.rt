//! A manager and an assistant as parts of a run over frames: what comes in a frame is told to the
//! part, and what the part gives is the frame's answer. The grammar is told in `docs/FORMATS.md`.
#![tactic(auto)]

mod eim_part;
mod ipa_part;
mod runs;
mod unread;

pub use eim_part::EimPart;
pub use ipa_part::IpaPart;
pub use runs::{run_eim, run_ipa};

#[cfg(test)]
mod tests;
