use iot_bytes::Row;
use sgp_values::{Address, Eid, EimId, Iccid, Key, Nickname};

/// A profile in the card's table. A valid table has at most 16, with distinct ICCIDs, and at most
/// one of them is enabled.
#[derive(Clone, Copy, Debug, PartialEq, Eq)]
pub struct Profile {
    pub iccid: Iccid,
    pub enabled: bool,
    pub nickname: Nickname,
}

/// An eIM that is associated with the card (SGP.32, eIM Configuration Data). `counter` is that of
/// the last package taken from it, 0 before the first. `association` is the number that the card
/// gave when the eIM was added, from 1 on; it is never given out again.
#[derive(Clone, Copy, Debug, PartialEq, Eq)]
pub struct EimEntry {
    pub id: EimId,
    pub address: Address,
    pub key: Key,
    pub counter: u64,
    pub association: u32,
}

/// An entry of the eIM list as the card shows it: an [`EimEntry`] without its key.
#[derive(Clone, Copy, Debug, PartialEq, Eq)]
pub struct EimLine {
    pub id: EimId,
    pub address: Address,
    pub association: u32,
    pub counter: u64,
}

/// A Profile State Management Operation (SGP.32). `rollback` is the rollback flag of an enable:
/// with it the profile that was enabled as the package began may be given back later.
#[derive(Clone, Copy, Debug, PartialEq, Eq)]
pub enum Psmo {
    Enable { iccid: Iccid, rollback: bool },
    Disable { iccid: Iccid },
    Delete { iccid: Iccid },
    List,
}

/// An eIM Configuration Operation (SGP.32). An update replaces only the fields that it names.
#[derive(Clone, Copy, Debug, PartialEq, Eq)]
pub enum Eco {
    Add {
        id: EimId,
        address: Address,
        key: Key,
    },
    Update {
        id: EimId,
        address: Option<Address>,
        key: Option<Key>,
    },
    Delete {
        id: EimId,
    },
    List,
}

/// The operations of a package, 1 to 8 and all of one kind.
#[derive(Debug, Drop, PartialEq, Eq)]
pub enum Body {
    Psmos(Row<Psmo>),
    Ecos(Row<Eco>),
}

/// An eUICC Package (SGP.32) without its signature. `association` is the number that the card gave
/// to the eIM, and `counter` protects against replay: the card takes a package only where its
/// counter is above the one kept for the eIM.
#[derive(Debug, Drop)]
pub struct Package {
    pub eim: EimId,
    pub eid: Eid,
    pub association: u32,
    pub counter: u64,
    pub body: Body,
}

/// An eUICC Package with its signature, 0 to 128 octets. The card doesn't read them: the verdict
/// on the signature is supplied beside the package.
#[derive(Debug, Drop)]
pub struct Signed {
    pub package: Package,
    pub signature: Row<u8>,
}

/// What came of one operation. Code 0 is done; an enable, disable or delete has 1 for a profile
/// that isn't there and 2 for one in the wrong state, and a delete has 3 for a profile that a
/// rollback may give back. An add has 1 where the eIM is there, 2 where eight are there and 3 where
/// the associations are used up; its association is 0 exactly where its code isn't 0. An update or
/// a `Dropped`, which is the delete of an eIM, has 1 where the eIM isn't there, and a `Dropped`
/// that left no eIM has 2, which counts as done.
#[derive(Debug, Drop, PartialEq, Eq)]
pub enum Item {
    Enable(u8),
    Disable(u8),
    Delete(u8),
    Profiles(Row<Profile>),
    Add { code: u8, association: u32 },
    Update(u8),
    Dropped(u8),
    Eims(Row<EimLine>),
}

/// An eUICC Package Result (SGP.32): an item for each operation that was executed. The card numbers
/// its results by `seq`, from 1 on; a rollback marks the result of the package that permitted it
/// as `rolled`, under a new number.
#[derive(Debug, Drop, PartialEq, Eq)]
pub struct PackageResult {
    pub seq: u32,
    pub eim: EimId,
    pub association: u32,
    pub counter: u64,
    pub items: Row<Item>,
    pub rolled: bool,
}

/// Why the card refused a package. 1 is malformed, 2 an unknown eIM, 3 a bad verdict on the
/// signature, 4 the EID of another card, 5 a wrong association, 6 a replay, 7 no room for a
/// result, and 8 too long. `kept` and `received` are the card's counter and the package's for
/// code 6, and 0 for every other code.
#[derive(Clone, Copy, Debug, PartialEq, Eq)]
pub struct Refused {
    pub code: u8,
    pub kept: u64,
    pub received: u64,
}

/// A permitted rollback: the profile that it enables again, and the number of the result that it
/// marks.
#[derive(Clone, Copy, Debug, PartialEq, Eq)]
pub struct Armed {
    pub former: Iccid,
    pub seq: u32,
}

/// A command to the card over ES10b. `Load` carries the octets of a signed package with the verdict
/// on its signature; `Initial` associates the first eIM.
#[derive(Debug, Drop)]
pub enum Command {
    Personalise {
        eid: Eid,
        profiles: Row<Profile>,
    },
    Load {
        good: bool,
        bytes: Row<u8>,
    },
    Rollback,
    Remove {
        seq: u32,
    },
    Results,
    Eims,
    Initial {
        id: EimId,
        address: Address,
        key: Key,
    },
}

/// The card's answer to a [`Command`]. `InitialRefused` has code 1 where the card has an eIM and 2
/// where the associations are used up; `Malformed` answers octets that are no command.
#[derive(Debug, Drop, PartialEq, Eq)]
pub enum Answer {
    Personalised,
    Loaded(PackageResult),
    LoadRefused(Refused),
    RolledBack { seq: u32 },
    NotPermitted,
    Removed,
    Absent,
    Results(Row<PackageResult>),
    Eims(Row<EimLine>),
    Associated { association: u32 },
    InitialRefused { code: u8 },
    Malformed,
    AlreadyPersonal,
}
