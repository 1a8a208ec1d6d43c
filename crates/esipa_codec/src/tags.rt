//! The tags of messages, a module a direction, for readers, writers and lengths.

/// A message to an eIM.
pub(crate) mod to_eim {
    pub(crate) const POLL: u8 = 0xa0;

    pub(crate) const RESULT: u8 = 0xa1;

    pub(crate) const REFUSED: u8 = 0xa2;

    /// The card for which a Poll asks.
    pub(crate) const EID: u8 = 0x80;
}

/// A message to the assistant.
pub(crate) mod to_ipa {
    pub(crate) const PACKAGE: u8 = 0x80;

    pub(crate) const NOTHING: u8 = 0x81;

    pub(crate) const ACK: u8 = 0xa2;
}
