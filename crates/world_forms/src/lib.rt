//! The forms of words that step a world: a schedule is replayed over a card on a bench, the network
//! around it, and modems.
#![tactic(auto)]

mod demo;
mod playing;
mod replay_part;
mod replaying;
mod tally;

pub use demo::run_demo;
pub use replaying::run_replay;

#[cfg(test)]
mod tests;
