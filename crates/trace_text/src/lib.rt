//! The texts of a trace that are made of card values: the items of a result, a refusal, the card,
//! and the records of a manager. `docs/SCHEDULE.md` shows where they are printed.
#![tactic(auto)]

mod card;
mod items;
mod parts;
mod records;
#[cfg(test)]
mod tests;

pub use card::put_card;
pub use items::{put_items, put_refused};
pub use parts::{put_number, put_text};
pub use records::put_kept;
