//! The parts of a home and their sizes in octets.

use small_card::limits::{MOST_EIMS, MOST_PENDING, MOST_PROFILES};

/// The version of the fields.
pub(crate) const VERSION: u8 = 1;

/// The octets of a whole home.
pub const HOME: usize = 172_288;

/// The octets in front of the result slots: the head, the profile slots and the eIM slots.
pub const FIELDS: usize = 6_400;

/// The zeros where no rollback is armed, and those at the end of the head.
pub(crate) const NOT_ARMED: usize = 14;

pub(crate) const HEAD_END: usize = 214;

/// A profile slot, how many there are, the field of a nickname, and the zeros at the slot's end.
pub(crate) const PROFILE_SLOT: usize = 128;

pub(crate) const PROFILE_SLOTS: usize = MOST_PROFILES;

pub(crate) const NICKNAME: usize = 64;

pub(crate) const PROFILE_END: usize = 52;

/// An eIM slot, how many there are, the field of each text, and the zeros at the slot's end.
pub(crate) const EIM_SLOT: usize = 512;

pub(crate) const EIM_SLOTS: usize = MOST_EIMS;

pub(crate) const TEXT: usize = 128;

pub(crate) const EIM_END: usize = 113;

/// The octets of a result slot.
pub const RESULT_SLOT: usize = 20_736;

/// How many result slots there are.
pub const RESULT_SLOTS: usize = MOST_PENDING;

/// The octets of the greatest result.
pub(crate) const LONGEST_RESULT: u32 = 18_309;

/// The octets of a value that has always so many.
pub(crate) const ICCID: usize = 10;

pub(crate) const EID: usize = 16;
