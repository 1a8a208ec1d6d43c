//! The world of a schedule: the card on its bench, the network around it, and the modems that are
//! lent. [`World::start`] is the first line of a schedule, and [`World::step`] any later one: one
//! step of the small world, as it is defined in `small_world`. `docs/WORLD.md` tells it.
#![tactic(auto)]

mod asking;
mod assistant_lines;
mod boxes;
mod card_lines;
mod ends;
mod handing_lines;
mod modem_lines;
mod quiet_lines;
mod show_line;
mod stepping;
#[cfg(test)]
mod tests;
mod world;

pub use ends::Halt;
pub use world::World;
