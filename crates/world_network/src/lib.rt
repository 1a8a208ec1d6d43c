//! The managers (eIMs) and the assistant (IPA) of a world, and all messages between them, kept as
//! octets. A delivery decodes the message that it delivers, and no other. `docs/WORLD.md` tells
//! what each line of a schedule does to them.
#![tactic(auto)]

mod mail;
mod managers;
mod network;

pub use mail::{Letter, Mail, SendEnd};
pub use managers::Manager;
pub use network::Network;
