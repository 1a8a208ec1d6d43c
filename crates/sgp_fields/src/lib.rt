//! What codecs of records share: the values of fields, fields in order, fields that may be left
//! out, and lists of elements (X.690, DER). A reader takes octets apart from the left and answers
//! nothing at the first fault; each call's contract is its reading word in `specs/`, and the lemmas
//! in `proofs/` tie that word to the spelling.
#![tactic(auto)]

mod alone;
mod config;
mod fields;
mod lengths;
mod lists;
#[cfg(test)]
mod tests;
mod values;
mod writing;

pub use alone::{number_alone, number_alone_len, put_number_alone, when_empty};
pub use config::{EimConfig, config_len, put_config, read_config};
pub use fields::Fields;
pub use lengths::{element_len, field_len, flag_len, mark_len, number_len, optional_len};
pub use lists::{Listed, list, whole};
pub use values::{Content, Octets};
pub use writing::{
    Written, list_len, put_flag, put_list, put_mark, put_optional, write, write_list,
};
