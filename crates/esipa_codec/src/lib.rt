//! What managers (eIMs) and assistants (IPAs) say to each other over ESipa (SGP.32), and what each
//! of them does with it, as definitions. The rules are told in `docs/ESIPA.md`.
#![tactic(auto)]

mod ends;
mod laws;
mod messages;
mod tags;
#[cfg(test)]
mod tests;
mod to_eim;
mod to_ipa;
mod worked;

pub use ends::{Act, BindEnd, Binding, MessageEnd, OrderEnd};
pub use laws::{
    counters_never_return, late_copies_change_no_record, messages_are_read_back,
    messages_are_short, messages_have_one_spelling, records_stay, strikes_are_few,
};
pub use messages::{Post, ToEim, ToIpa};
pub use to_eim::{read_to_eim, to_eim_len, write_to_eim};
pub use to_ipa::{read_to_ipa, to_ipa_len, write_to_ipa};
pub use worked::{counters_worked, records_worked, strikes_worked};
