ghost use Rattle.std.specs.Prelude.{◌≡◌, OnErr, length, ℕ, List, Some, None, Ok, Err, MatchResult};
ghost use Rattle.std.specs.Prelude.{IfOk, MatchOption, IfSome, ◌≤◌, ◌<◌};
ghost use Rattle.sgp_der.specs.Element.{Begins, Tlv as IsElement};
ghost use Rattle.sgp_der.specs.Reading.{len_at, element_at, Part};
ghost use Rattle.sgp_der.specs.Fields.{field_at, only_at};

use crate::form::{
    FROM_ONE_OCTET, FROM_THREE_OCTETS, FROM_TWO_OCTETS, ONE_OCTET, TAG_NUMBER, THREE_OCTETS,
    TWO_OCTETS,
};
use thiserror::Error;

/// One element, and what follows it.
#[derive(Clone, Copy, Debug)]
pub struct Tlv<'a> {
    /// The tag octet: its low five bits aren't all set.
    pub tag: u8,
    /// The content, of at most [`MOST_CONTENT`](crate::MOST_CONTENT) octets.
    pub content: &'a [u8],
    /// The octets behind the element.
    pub rest: &'a [u8],
}

/// Why the octets begin with no element. Where several hold, the one that is
/// met first from the left.
#[derive(Clone, Copy, Debug, PartialEq, Eq, Error)]
pub enum DerFault {
    /// The octets end before the element does.
    #[error("the octets end before the element does")]
    Short,
    /// The length isn't definite, has more than three octets, or isn't said in
    /// the fewest octets.
    #[error("the length is in no form that is read")]
    LongForm,
    /// The tag has more than one octet: the low five bits of the first are all
    /// set.
    #[error("the tag has more than one octet")]
    Tag,
}

// The length, which no shorter form can say.
fn at_least(least: usize, n: usize, rest: &[u8]) -> Result<(usize, &[u8]), DerFault>
    ensures { MatchResult result (λ x. (least ≤ n) × (x.0 ≡ n) × (x.1.now ≡ rest.now))
        (λ e. (n < least) × (e ≡ DerFault.LongForm)) }
{
    if n < least {
        return Err(DerFault::LongForm);
    }
    Ok((n, rest))
}

// The length, and the octets behind it.
#[tactic(auto, unfolding(crate::specs::Reading::len_at))]
fn definite_len(bytes: &[u8]) -> Result<(usize, &[u8]), DerFault>
    ensures { MatchResult result (λ x. len_at bytes.now ≡ Ok (x.0, x.1.now))
        (λ e. len_at bytes.now ≡ Err e) }
{
    match bytes {
        [] => Err(DerFault::Short),
        [first, rest @ ..] if (*first as usize) < FROM_ONE_OCTET => Ok((*first as usize, rest)),
        [ONE_OCTET, a, rest @ ..] => at_least(FROM_ONE_OCTET, *a as usize, rest),
        [TWO_OCTETS, a, b, rest @ ..] => {
            at_least(FROM_TWO_OCTETS, *a as usize * 256 + *b as usize, rest)
        }
        [THREE_OCTETS, a, b, c, rest @ ..] => at_least(
            FROM_THREE_OCTETS,
            *a as usize * 65536 + *b as usize * 256 + *c as usize,
            rest,
        ),
        [ONE_OCTET..=THREE_OCTETS, ..] => Err(DerFault::Short),
        _ => Err(DerFault::LongForm),
    }
}

// The element at the front, or the first fault that is met.
#[tactic(auto, unfolding(crate::specs::Reading::element_at))]
fn split(bytes: &[u8]) -> Result<Tlv<'_>, DerFault>
    ensures { MatchResult result (λ t. element_at bytes.now
        ≡ Ok (record { tag = t.tag; content = t.content.now; rest = t.rest.now }))
        (λ e. element_at bytes.now ≡ Err e) }
{
    match bytes {
        [] => Err(DerFault::Short),
        [tag, after @ ..] => {
            if *tag % 32 == TAG_NUMBER {
                return Err(DerFault::Tag);
            }
            let (len, rest) = definite_len(after)?;
            if rest.len() < len {
                return Err(DerFault::Short);
            }
            let (content, rest) = rest.split_at(len);
            Ok(Tlv {
                tag: *tag,
                content,
                rest,
            })
        }
    }
}

/// The element at the front (X.690, with at most three length octets).
pub fn next(bytes: &[u8]) -> Result<Tlv<'_>, DerFault>
    ensures found { IfOk result (λ t. Begins bytes.now t.tag t.content.now t.rest.now) }
    ensures only { OnErr result ((tag : ℕ) (content rest : List ℕ)
        → Begins bytes.now tag content rest → ⊥) }
    ensures exact { MatchResult result (λ t. element_at bytes.now
        ≡ Ok (record { tag = t.tag; content = t.content.now; rest = t.rest.now }))
        (λ e. element_at bytes.now ≡ Err e) }
{
    split(bytes)
}

/// The element at the front, where it has this tag; `None` also where there is
/// no element.
#[tactic(auto, unfolding(crate::specs::Fields::field_at))]
pub fn field(bytes: &[u8], tag: u8) -> Option<Tlv<'_>>
    ensures tag { IfSome result (λ t. t.tag ≡ tag) }
    ensures found { MatchOption result ((content rest : List ℕ) → Begins bytes.now tag content rest
        → ⊥) (λ t. Begins bytes.now tag t.content.now t.rest.now) }
    ensures exact { MatchOption result (field_at tag bytes.now ≡ None)
        (λ t. field_at tag bytes.now
        ≡ Some (record { tag = t.tag; content = t.content.now; rest = t.rest.now })) }
{
    match next(bytes) {
        Ok(found) if found.tag == tag => Some(found),
        _ => None,
    }
}

/// The content of the bytes, where they are one whole element of this tag.
#[tactic(auto, unfolding(crate::specs::Fields::only_at))]
pub fn only(bytes: &[u8], tag: u8) -> Option<&[u8]>
    ensures found { MatchOption result ((content : List ℕ) → IsElement bytes.now tag content → ⊥)
        (λ content. IsElement bytes.now tag content.now) }
    ensures exact { MatchOption result (only_at tag bytes.now ≡ None)
        (λ content. only_at tag bytes.now ≡ Some content.now) }
{
    let found = field(bytes, tag)?;
    if found.rest.is_empty() {
        Some(found.content)
    } else {
        None
    }
}
