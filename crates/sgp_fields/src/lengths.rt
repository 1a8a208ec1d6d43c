//! How many octets elements and fields have. A writer needs the length of a content before it
//! writes the content. None of these calls takes memory.

ghost use Rattle.std.specs.Prelude.{◌≡◌, ◌≤◌, ◌+◌, ℕ, List, length};
ghost use Rattle.sgp_der.specs.Element.{element};
ghost use Rattle.sgp_der.specs.Number.{uint};
ghost use Rattle.sgp_fields.specs.Fields.{mark, optional};
ghost use Rattle.sgp_fields.specs.Values.{flag_content};

use crate::values::Octets;
use sgp_der::{MOST_CONTENT, MOST_HEAD, MOST_UINT, head_len, uint_len};

/// How many octets an element has whose content has so many.
pub fn element_len(content: usize) -> usize
    requires { content ≤ MOST_CONTENT }
    ensures len { (tag : ℕ) (octets : List ℕ) → length octets ≡ content
        → result ≡ length (element tag octets) }
    ensures few { result ≤ content + MOST_HEAD }
{
    head_len(content) + content
}

/// How many octets the field of a content has.
pub fn field_len(content: &[u8]) -> usize
    requires { length content.now ≤ MOST_CONTENT }
    ensures len { (tag : ℕ) → length (element tag content.now) ≡ result }
    ensures few { result ≤ length content.now + MOST_HEAD }
{
    element_len(content.len())
}

/// How many octets the field of an integer has.
pub fn number_len(n: u64) -> usize
    ensures len { (tag : ℕ) → length (element tag (uint n)) ≡ result }
    ensures few { result ≤ MOST_UINT + MOST_HEAD }
{
    element_len(uint_len(n))
}

/// How many octets the field of a flag has.
#[tactic(auto, unfolding(crate::specs::Values::flag_content))]
pub fn flag_len(flag: bool) -> usize
    ensures len { (tag : ℕ) → length (element tag (flag_content flag)) ≡ result }
    ensures few { result ≤ MOST_UINT + MOST_HEAD }
{
    if flag { number_len(1) } else { number_len(0) }
}

/// How many octets a mark has.
pub fn mark_len(set: bool) -> usize
    ensures len { (tag : ℕ) → length (mark tag set) ≡ result }
    ensures few { result ≤ MOST_HEAD }
{
    if set { field_len(&[]) } else { 0 }
}

/// How many octets the field of a value has that may be left out.
pub fn optional_len<T: Octets>(x: &Option<T>) -> usize
    ensures len { (tag : ℕ) → length (optional T.octets_of tag x.now) ≡ result }
    ensures few { result ≤ 133 }
{
    match x {
        Some(x) => field_len(x.as_octets()),
        None => 0,
    }
}
