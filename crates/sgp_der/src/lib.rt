//! Elements of DER (X.690): definite lengths of at most three octets, and
//! integers from 0 to 2^64 - 1. Reading takes no memory; what is written is
//! appended to a row.
#![tactic(auto)]

mod element;
mod form;
mod laws;
mod number;
mod put;

pub use element::{DerFault, Tlv, field, next, only};
pub use form::{MOST_CONTENT, MOST_HEAD};
pub use laws::{
    elements_read_again, elements_split, integers_have_one_content, integers_read_again,
};
pub use number::{MOST_UINT, uint, uint_len};
pub use put::{head_len, put_head, put_octets, put_uint};

#[cfg(test)]
mod tests;
