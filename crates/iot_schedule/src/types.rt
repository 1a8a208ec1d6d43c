use chip_port::Tear;
use iot_bytes::Row;
use sgp_values::{Address, Eid, EimId, Key};
use small_card::{Body, Profile};

/// The first line of a schedule: the card that is personalised.
#[derive(Debug, Drop, PartialEq, Eq)]
pub struct Device {
    pub eid: Eid,
    pub profiles: Row<Profile>,
}

/// Which message of a list a line names: by its place from 0, or the newest one.
#[derive(Clone, Copy, Debug, PartialEq, Eq)]
pub enum Pick {
    At(u32),
    Last,
}

/// A line of a schedule behind the first. `docs/SCHEDULE.md` tells what happens at each.
#[derive(Debug, Drop, PartialEq, Eq)]
pub enum Line {
    Eim {
        id: EimId,
    },
    Initial {
        id: EimId,
        address: Address,
        key: Key,
    },
    Bind {
        id: EimId,
        association: u32,
        last: u64,
    },
    Order {
        id: EimId,
        body: Body,
    },
    Skip {
        id: EimId,
    },
    Poll {
        id: EimId,
    },
    Up {
        pick: Pick,
    },
    Down {
        pick: Pick,
        good: bool,
    },
    Load {
        good: bool,
        bytes: Row<u8>,
    },
    Push,
    Probe {
        passed: bool,
    },
    Rollback,
    Restart,
    Cut {
        calls: u32,
        tear: Tear,
    },
    Boot,
    Show,
    Kept {
        id: EimId,
    },
    Detach {
        at: u32,
    },
    Modems,
}
