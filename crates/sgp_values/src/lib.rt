//! Values of bounded size: what names cards, profiles and eIMs, and what is kept with them.
//!
//! Each value is made from octets by `of`, which refuses exactly what is outside the range of its
//! type, and gives them back by `octets`. It is `Copy`, keeps its octets in an array and takes no
//! memory. Contracts see it as the list of its octets. Two values are equal exactly where these
//! lists are, and they stand in the order of the lists: the first octet that differs decides, and
//! a list comes before a longer one that begins with it.
#![tactic(auto)]

mod address;
mod alphabet;
mod bounded;
mod eid;
mod eim_id;
mod iccid;
mod key;
mod nickname;
mod out_of_range;
#[cfg(test)]
mod tests;

pub use address::Address;
pub use eid::Eid;
pub use eim_id::EimId;
pub use iccid::Iccid;
pub use key::Key;
pub use nickname::Nickname;
pub use out_of_range::OutOfRange;
