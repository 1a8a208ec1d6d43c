use iot_bytes::Row;
use sgp_values::{Eid, EimId};
use small_card::{PackageResult, Refused};

/// A message to an eIM: the assistant asks for a package on behalf of the card with this EID, hands
/// on a result, or hands on the card's refusal of a package.
#[derive(Debug, Drop)]
pub enum ToEim {
    Poll { eid: Eid },
    Result(PackageResult),
    Refused(Refused),
}

/// A message to the assistant: the octets of a signed package, word that none waits, or the
/// acknowledgement of the result with this sequence number.
#[derive(Debug, Drop)]
pub enum ToIpa {
    Package(Row<u8>),
    Nothing,
    Ack { seq: u32 },
}

/// A message to an eIM, with the identifier of the one that it goes to.
#[derive(Debug, Drop)]
pub struct Post {
    pub to: EimId,
    pub message: ToEim,
}
