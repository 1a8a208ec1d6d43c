//! What the lines of a schedule print that a world answers, beyond the texts that are made of card
//! values alone. `docs/SCHEDULE.md` shows the texts.
//!
//! Each call appends its text. Where memory runs out, a front of it may be left behind what was
//! there before.
#![tactic(auto)]

mod modems;
mod network;
mod replies;
#[cfg(test)]
mod tests;

pub use modems::{put_modem, put_modems, put_modems_by};
pub use network::{put_also_sent, put_answer, put_bind, put_order, put_pushed, put_sent, put_skip};
pub use replies::{put_device, put_said, put_strikes};
