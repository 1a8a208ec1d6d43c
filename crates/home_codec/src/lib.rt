//! The home of a card on its chip, as octets: the head, the slots of profiles and of eIMs, and the
//! slots of pending results (docs/FORMATS.md, "The card's image").
//!
//! [`read_card`] reads a whole home, and [`home_octets`] writes one. A home is that of at most one
//! card ([`homes_have_one_card`]).
//!
//! One part may also be written alone, so that a unit writes what changes and no more.
//! [`fields_octets`] are the octets in front of the result slots. [`slot_octets`] are those that a
//! result slot begins with, and what stands behind them may be any octets: a result that stays in
//! its slot needs no write, and a slot is made free by its first four octets. [`slot_number`] tells
//! which result a slot holds by its first block. That such parts, each written over what stood at
//! its place, make the home of the new card is the law [`parts_are_laid`]; what a result that takes
//! a slot, or leaves it, makes of the list is [`places_change`].
#![tactic(auto)]

mod card;
mod fitting;
mod fixed;
mod head;
mod laws;
mod layout;
mod numbers;
mod octets;
mod reading;
mod results;
mod slots;
mod writing;

pub use card::Card;
pub use laws::{
    homes_are_read_back, homes_are_whole, homes_have_one_card, parts_are_laid, places_change,
};
pub use layout::{FIELDS, HOME, RESULT_SLOT, RESULT_SLOTS};
pub use numbers::slot_number;
pub use octets::{fields_octets, home_octets, slot_octets};
pub use reading::read_card;

#[cfg(test)]
mod tests;
