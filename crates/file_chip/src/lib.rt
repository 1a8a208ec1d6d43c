//! A memory chip in a file: the trusted edge of a card that survives the process.
//!
//! [`FileChip`] keeps a chip's octets in a file. It tells no content, since no contract can say
//! what a file gives, and keeps the clauses that hold of every chip.
#![tactic(auto)]

mod file;

pub use file::FileChip;

#[cfg(test)]
mod tests;
