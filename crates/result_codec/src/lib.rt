//! Package results as octets (SGP.32, eUICC Package Result): reader, writer and length, of the two
//! lists that results carry, of profiles and of eIM lines, and of refusals. Each value has one
//! spelling: readers take exactly the spellings of values in range, and writers append them, each
//! head before its content.
#![tactic(auto)]

mod eim_lines;
mod items;
mod laws;
mod profiles;
mod refusals;
mod results;
mod tags;
#[cfg(test)]
mod tests;

pub use eim_lines::{eim_lines_len, read_eim_lines, write_eim_lines};
pub use laws::{
    lists_have_one_spelling, refusals_are_read_back, results_are_read_back, results_are_short,
    results_have_one_spelling,
};
pub use profiles::{profiles_len, read_profiles, write_profiles};
pub use refusals::{read_refusal, refusal_len, write_refusal};
pub use results::{read_result, read_result_content, result_len, write_result};
