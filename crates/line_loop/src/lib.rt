//! One loop over lines, for whatever handles them.
//!
//! A [`LinePart`] handles lines one after the other. The loop reads a line, has it handled and
//! sends its text before it reads the next one, so it holds one line at a time. At the end of the
//! input it sends the part's closing text, and where something else ends the run it writes the stop
//! line. Limits, the order of causes, the stop line and the facts on faults stand here, once for
//! all parts: a form of words gives its part, and says in [`LinePart`]'s ghost members what its
//! lines did.
#![tactic(auto)]

mod halt;
mod part;
mod reading;
mod sending;
mod serving;

pub use halt::{EndStop, Halt, LineStop, NoLine, RunEnd};
pub use part::LinePart;
pub use reading::{MOST_LINES, MOST_OCTETS};
pub use sending::send_stop_line;
pub use serving::serve_lines;
