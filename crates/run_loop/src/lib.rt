//! One loop over frames, for whatever answers them.
//!
//! A [`Part`] answers frames one after the other, over an outside that it is lent. The loop reads a
//! frame, has it answered and sends the answer before it reads the next one, until something ends
//! the run, and then writes the stop record. Limits, the order of causes, the stop record and the
//! facts on faults stand here, once for all parts: a form of words gives its part, and says in
//! [`Part`]'s ghost members what its frames did.
#![tactic(auto)]

mod halt;
mod part;
mod reading;
mod sending;
mod serving;

pub use halt::{Halt, PartStop, ReadStop, RunEnd, SendStop};
pub use part::Part;
pub use reading::MOST_FRAMES;
pub use sending::{send_last, send_octets};
pub use serving::{end_unopened, serve};

#[cfg(test)]
mod tests;
