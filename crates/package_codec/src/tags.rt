//! The tags of signed packages (SGP.32, eUICC Package), a module a record, for readers and writers.

/// A package with its signature.
pub(crate) mod outer {
    pub(crate) const WHOLE: u8 = 0x30;

    pub(crate) const PACKAGE: u8 = 0x30;

    pub(crate) const SIGNATURE: u8 = 0x86;
}

/// What a package is about.
pub(crate) mod inner {
    pub(crate) const EIM_ID: u8 = 0x80;

    pub(crate) const EID: u8 = 0x81;

    pub(crate) const ASSOCIATION: u8 = 0x82;

    pub(crate) const COUNTER: u8 = 0x83;
}

/// The operations of a package, of one kind or the other.
pub(crate) mod operations {
    pub(crate) const PSMOS: u8 = 0xa4;

    pub(crate) const ECOS: u8 = 0xa5;
}

/// An operation on profiles, and its fields.
pub(crate) mod profile {
    pub(crate) const ENABLE: u8 = 0xa0;

    pub(crate) const DISABLE: u8 = 0xa1;

    pub(crate) const DELETE: u8 = 0xa2;

    pub(crate) const LIST: u8 = 0x83;

    pub(crate) const ICCID: u8 = 0x80;

    pub(crate) const ROLLBACK: u8 = 0x81;
}

/// An operation on eIMs, and its fields.
pub(crate) mod eim {
    pub(crate) const ADD: u8 = 0xa8;

    pub(crate) const UPDATE: u8 = 0xa9;

    pub(crate) const DELETE: u8 = 0xaa;

    pub(crate) const LIST: u8 = 0x8b;

    pub(crate) const ID: u8 = 0x80;

    pub(crate) const ADDRESS: u8 = 0x81;

    pub(crate) const KEY: u8 = 0x82;
}
