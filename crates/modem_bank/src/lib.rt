//! The modems that a device has beside its card: a list of boxed objects that the caller owns and
//! lends. Each is told the enabled profile once per change, and one can be taken out.
#![tactic(auto)]

mod bank;
mod modem;
mod plain;
mod split;
#[cfg(test)]
mod tests;

pub use bank::{DetachEnd, detach, detach_at, refreshes, shows, tell, tell_each, tell_one};
pub use modem::Modem;
pub use plain::PlainModem;
pub use split::SplitModem;
