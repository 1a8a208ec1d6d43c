//! Signed packages as octets (SGP.32, eUICC Package; `docs/FORMATS.md`): reader, writer and their
//! lengths. One value has one spelling, and the reader takes nothing else.
#![tactic(auto)]

mod body;
mod body_writing;
mod laws;
mod reading;
mod replies;
mod tags;
mod writing;

pub use body::BodyEntry;
pub use laws::{
    bodies_are_read_back, bodies_have_one_spelling, packages_are_read_back, packages_are_short,
    packages_have_one_spelling,
};
pub use reading::{read_body, read_signed};
pub use replies::{
    counters_rise, histories_stay_legal, malformed_loads_spell_nothing, replies_are_in_range,
    results_go_last, units_may_happen,
};
pub use writing::{signed_len, write_signed};

#[cfg(test)]
mod tests;
