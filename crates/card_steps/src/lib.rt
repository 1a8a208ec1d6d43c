//! One step of the card (eUICC) over values: what a command makes of a card that is only read.
//!
//! Every command of ES10b is one unit of the card's history, or none.
#![tactic(auto)]

mod listing;
mod loading;
mod stepping;
mod turns;
mod units;

pub use home_codec::Card;
pub use stepping::turn;
pub use turns::Turn;

#[cfg(test)]
mod tests;
