//! The tags of records, a module a record, for readers, lengths and writers.

/// What comes to a manager.
pub(crate) mod eim_input {
    pub(crate) const BIND: u8 = 0xa0;

    pub(crate) const SKIP: u8 = 0x86;

    pub(crate) const MESSAGE: u8 = 0xa7;
}

/// The fields of a Bind.
pub(crate) mod bind {
    pub(crate) const ASSOCIATION: u8 = 0x80;

    pub(crate) const LAST: u8 = 0x81;
}

/// What a manager gives.
pub(crate) mod eim_output {
    pub(crate) const ORDERED: u8 = 0x80;

    pub(crate) const REFUSED: u8 = 0xa1;

    pub(crate) const BOUND: u8 = 0x82;

    pub(crate) const SKIPPED: u8 = 0x83;

    pub(crate) const REPLY: u8 = 0xa4;

    pub(crate) const SILENT: u8 = 0x85;
}

/// What comes to an assistant.
pub(crate) mod ipa_input {
    pub(crate) const MESSAGE: u8 = 0xa0;

    pub(crate) const PROBE: u8 = 0x81;

    pub(crate) const RESTART: u8 = 0x82;

    pub(crate) const PUSH: u8 = 0x83;

    pub(crate) const ANSWER: u8 = 0xa4;

    pub(crate) const POLL: u8 = 0x85;
}

/// The fields of a message to an assistant.
pub(crate) mod message {
    pub(crate) const SENDER: u8 = 0x80;

    pub(crate) const VERDICT: u8 = 0x81;

    pub(crate) const INSIDE: u8 = 0xa2;
}

/// What an assistant does.
pub(crate) mod deed {
    pub(crate) const DEEDS: u8 = 0x30;

    pub(crate) const TO_CARD: u8 = 0xa0;

    pub(crate) const TO_EIM: u8 = 0xa1;
}

/// The fields of a post.
pub(crate) mod post {
    pub(crate) const TO: u8 = 0x80;

    pub(crate) const MESSAGE: u8 = 0xa2;
}
