//! Rows, sources, sinks and the digits of tokens: the floor that all parts stand on.
//!
//! Octets come from a [`Source`] in frames or lines and go to a [`Sink`]. What was read is the
//! front of what the source still had, what was sent is appended, and a fault is answered only
//! where the object's count of faults rose in that call.
#![tactic(auto)]

mod decimal;
mod frame;
mod hexadecimal;
mod line;
mod mem_sink;
mod mem_source;
mod memory;
mod reserve;
mod row;
mod sink;
mod source;
mod std_sink;
mod std_source;
mod token;

pub use decimal::{decimal_comes_back, decimal_is_digits, put_decimal, read_decimal};
pub use frame::{
    FRAME_HEAD_LEN, FRAME_LIMIT, FrameEnd, begin_frame, end_frame, frame_end_is_one,
    frames_are_one, frames_split, read_frame,
};
pub use hexadecimal::{hex_comes_back, put_hex, read_hex};
pub use line::{LINE_LIMIT, LineEnd, line_end_is_one, read_line};
pub use mem_sink::MemSink;
pub use mem_source::MemSource;
pub use memory::{NoMemory, ReadError};
pub use reserve::Reserve;
pub use row::Row;
pub use sink::{Sink, WriteFault, send};
pub use source::{Failed, Source};
pub use std_sink::StdSink;
pub use std_source::StdSource;
pub use token::{next_token, token_stands};

#[cfg(test)]
mod tests;
