//! The tags of results and refusals (SGP.32, eUICC Package Result), a module a record, for reader,
//! writer and lengths; and their greatest numbers, as they are read.

use small_card::limits;

pub(crate) const GREATEST_SEQ: u64 = limits::GREATEST_SEQ as u64;

pub(crate) const GREATEST_ASSOCIATION: u64 = limits::GREATEST_ASSOCIATION as u64;

pub(crate) mod result {
    pub(crate) const RESULT: u8 = 0x30;

    pub(crate) const SEQ: u8 = 0x80;

    pub(crate) const EIM_ID: u8 = 0x81;

    pub(crate) const ASSOCIATION: u8 = 0x82;

    pub(crate) const COUNTER: u8 = 0x83;

    pub(crate) const ITEMS: u8 = 0xa4;

    /// Stands at the end of a result that a rollback marked.
    pub(crate) const ROLLED: u8 = 0x85;
}

/// The items are read and written by one table in `items.rt`; those with a code alone have it as
/// their one number.
pub(crate) mod item {
    pub(crate) const ENABLE: u8 = 0xa0;

    pub(crate) const DISABLE: u8 = 0xa1;

    pub(crate) const DELETE: u8 = 0xa2;

    pub(crate) const PROFILES: u8 = 0xa3;

    pub(crate) const ADD: u8 = 0xa8;

    pub(crate) const UPDATE: u8 = 0xa9;

    pub(crate) const DROPPED: u8 = 0xaa;

    pub(crate) const EIMS: u8 = 0xab;
}

/// The fields in the item of an add.
pub(crate) mod add {
    pub(crate) const CODE: u8 = 0x80;

    pub(crate) const ASSOCIATION: u8 = 0x81;
}

pub(crate) mod profile {
    pub(crate) const PROFILE: u8 = 0x30;

    pub(crate) const ICCID: u8 = 0x80;

    pub(crate) const ENABLED: u8 = 0x81;

    pub(crate) const NICKNAME: u8 = 0x82;
}

pub(crate) mod eim_line {
    pub(crate) const LINE: u8 = 0x30;

    pub(crate) const EIM_ID: u8 = 0x80;

    pub(crate) const ADDRESS: u8 = 0x81;

    pub(crate) const ASSOCIATION: u8 = 0x82;

    pub(crate) const COUNTER: u8 = 0x83;
}

pub(crate) mod refusal {
    pub(crate) const CODE: u8 = 0x80;

    pub(crate) const KEPT: u8 = 0x81;

    pub(crate) const RECEIVED: u8 = 0x82;
}
