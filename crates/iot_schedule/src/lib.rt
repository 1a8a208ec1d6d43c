//! The schedule language: lines that people write, one for each thing that happens to a device, its
//! managers and its network. `docs/SCHEDULE.md` tells it.
//!
//! A line is words with one space between each two. What a text spells is a function of its words
//! (`specs/Devices.antt`, `specs/Steps.antt`); a writer's text is spelled by `specs/Spelling.antt`.
#![tactic(auto)]

mod devices;
mod laws;
mod line_writing;
mod maker;
mod operation_writing;
mod operations;
mod steps;
#[cfg(test)]
mod tests;
mod token_writing;
mod tokens;
mod types;
mod words;

pub use devices::read_device;
pub use laws::{devices_are_read_again, steps_are_read_again};
pub use line_writing::{write_device, write_step};
pub use maker::Maker;
pub use steps::read_step;
pub use types::{Device, Line, Pick};
