//! Records on ES10b as octets (SGP.32): commands to the card, answers of the card, and the record
//! that ends a run which stopped. Each value has one spelling: readers take exactly the spellings
//! of values in range, and writers append them, each head before its content.
#![tactic(auto)]

mod answers;
mod commands;
mod laws;
mod lists;
mod stop;
mod tags;
#[cfg(test)]
mod tests;

pub use answers::{answer_len, read_answer, write_answer};
pub use commands::{command_len, read_command, write_command};
pub use laws::{
    answers_are_read_back, answers_are_short, answers_have_one_spelling, commands_are_read_back,
    commands_have_one_spelling, stop_records_have_one_spelling,
};
pub use stop::write_stopped;
