//! The greatest sizes of a card's lists and the greatest of its numbers.

/// The most profiles of a table.
pub const MOST_PROFILES: usize = 16;

/// The most eIMs of a card.
pub const MOST_EIMS: usize = 8;

/// The most operations of a package, and the most items of its result.
pub const MOST_OPERATIONS: usize = 8;

/// The most pending results of a card.
pub const MOST_PENDING: usize = 8;

/// The most octets of a signed package that a card takes.
pub const MOST_PACKAGE_OCTETS: usize = 4096;

/// The greatest counter of a package and of an eIM's entry, 2^63 - 1.
pub const GREATEST_COUNTER: u64 = 0x7fff_ffff_ffff_ffff;

/// The greatest association that a card gives out; where it is the next, none is left.
pub const GREATEST_ASSOCIATION: u32 = u32::MAX;

/// The greatest sequence number of a result.
pub const GREATEST_SEQ: u32 = u32::MAX;
