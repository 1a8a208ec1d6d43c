//! The small world of a schedule, as definitions: what each line does to the card, the chip's plan,
//! the managers (eIMs), the assistant (IPA), the messages between them and the modems, and what it
//! prints. Runs of it, and their laws. `docs/WORLD.md` tells it.
#![tactic(auto)]

mod laws;
mod reply;
mod worked;

pub use laws::{
    boots_show_one_card, commands_reach_the_card, histories_are_legal, lines_leave_choices,
    marks_tell_the_history, messages_are_in_range, messages_stay_sent, modems_are_told_in_turn,
    newest_forms_lead, no_result_is_lost, numbers_name_forms,
    packages_are_taken_where_the_checks_accept, redelivered_packages_are_refused, runs_go_on,
};
pub use reply::Reply;
pub use worked::{
    far_plan_worked, late_acknowledgement_worked, lost_boot_worked, modems_worked,
    nobody_there_worked, probes_worked, set_up_worked, skipped_order_worked, torn_load_worked,
    two_eims_worked,
};
