//! The forms of words over schedules that step nothing: a schedule is checked, or generated.
#![tactic(auto)]

mod check_part;
mod checking;
mod generating;
mod laws;

pub use checking::run_check;
pub use generating::run_gen;
pub use laws::generated_lines_are_in_the_grammar;

#[cfg(test)]
mod tests;
