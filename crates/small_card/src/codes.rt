//! The codes of a card's answers: those of a result's items here, those of a refused load in
//! [`load`], those of a refused first eIM in [`initial`].

/// The operation was done.
pub const DONE: u8 = 0;

/// The profile isn't in the table, or the eIM has no entry.
pub const NOT_FOUND: u8 = 1;

/// The profile that is to be enabled is enabled, the one to be disabled isn't, or the one to be
/// deleted is.
pub const WRONG_STATE: u8 = 2;

/// The profile that is to be deleted is armed: a rollback may give it back.
pub const ARMED: u8 = 3;

/// The eIM that is to be added has an entry.
pub const EXISTS: u8 = 1;

/// The eIM that is to be added finds [`MOST_EIMS`](crate::limits::MOST_EIMS) entries.
pub const NO_ENTRY_LEFT: u8 = 2;

/// The eIM that is to be added finds no association left.
pub const NO_ASSOCIATION_LEFT: u8 = 3;

/// The eIM was deleted and no entry is left, which counts as done.
pub const LAST_DELETED: u8 = 2;

/// Why a card refuses to load a package.
pub mod load {
    /// The octets spell no signed package.
    pub const MALFORMED: u8 = 1;

    /// The eIM has no entry.
    pub const UNKNOWN_EIM: u8 = 2;

    /// The verdict on the signature is bad.
    pub const BAD_VERDICT: u8 = 3;

    /// The package names the EID of another card.
    pub const WRONG_EID: u8 = 4;

    /// The package names another association than the entry's.
    pub const WRONG_ASSOCIATION: u8 = 5;

    /// The package's counter isn't above the entry's.
    pub const REPLAY: u8 = 6;

    /// The card has no room for a result.
    pub const NO_ROOM: u8 = 7;

    /// There are more octets than a card takes.
    pub const TOO_LONG: u8 = 8;
}

/// Why a card refuses a first eIM.
pub mod initial {
    /// The card has an eIM.
    pub const EIM_THERE: u8 = 1;

    /// The associations are used up.
    pub const NO_ASSOCIATION_LEFT: u8 = 2;
}
