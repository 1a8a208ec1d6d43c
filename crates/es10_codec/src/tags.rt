//! The tags of records on ES10b (SGP.32), a module a record, for reader, writer and lengths; and
//! their greatest numbers, as they are read.

use small_card::limits;

pub(crate) const GREATEST_SEQ: u64 = limits::GREATEST_SEQ as u64;

pub(crate) const GREATEST_ASSOCIATION: u64 = limits::GREATEST_ASSOCIATION as u64;

pub(crate) mod command {
    pub(crate) const PERSONALISE: u8 = 0xa0;

    pub(crate) const LOAD: u8 = 0xa1;

    pub(crate) const ROLLBACK: u8 = 0x82;

    pub(crate) const REMOVE: u8 = 0xa3;

    pub(crate) const RESULTS: u8 = 0x84;

    pub(crate) const EIMS: u8 = 0x85;

    pub(crate) const INITIAL: u8 = 0xa6;
}

/// The fields of a Personalise.
pub(crate) mod personalise {
    pub(crate) const EID: u8 = 0x80;

    pub(crate) const PROFILES: u8 = 0xa1;
}

/// The fields of a Load.
pub(crate) mod load {
    pub(crate) const VERDICT: u8 = 0x80;

    pub(crate) const PACKAGE: u8 = 0x81;
}

pub(crate) mod answer {
    pub(crate) const PERSONALISED: u8 = 0x80;

    pub(crate) const LOADED: u8 = 0xa1;

    pub(crate) const LOAD_REFUSED: u8 = 0xa2;

    pub(crate) const ROLLED_BACK: u8 = 0xa3;

    pub(crate) const NOT_PERMITTED: u8 = 0x84;

    pub(crate) const REMOVED: u8 = 0x85;

    pub(crate) const ABSENT: u8 = 0x86;

    pub(crate) const RESULTS: u8 = 0xa7;

    pub(crate) const EIMS: u8 = 0xa8;

    pub(crate) const ASSOCIATED: u8 = 0xa9;

    pub(crate) const INITIAL_REFUSED: u8 = 0xaa;

    pub(crate) const MALFORMED: u8 = 0x8b;

    pub(crate) const ALREADY_PERSONAL: u8 = 0x8c;
}

/// An entry in a list of results.
pub(crate) const RESULT: u8 = 0x30;

/// The stop record and its fields.
pub(crate) mod stop {
    pub(crate) const STOPPED: u8 = 0xad;

    pub(crate) const STATUS: u8 = 0x80;

    pub(crate) const NUMBER: u8 = 0x81;
}
