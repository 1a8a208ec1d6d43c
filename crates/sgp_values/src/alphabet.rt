//! The alphabets of identifiers and addresses. Each octet is looked at, with no early end, so that
//! a compiler can test many at once.
ghost use Rattle.std.specs.Prelude.{◌≡◌, ◌&&◌, ◌↔◌, IsTrue, nat_le};
ghost use Rattle.std.specs.List.{AllPass, list_all};
ghost use Rattle.sgp_values.specs.Ranges.{is_name_octet, is_address_octet};

fn is_between(first: u8, octet: u8, last: u8) -> bool
    ensures { result ≡ (nat_le first octet && nat_le octet last) }
{
    (first <= octet) & (octet <= last)
}

fn is_name(octet: u8) -> bool
    ensures { result ≡ is_name_octet octet }
{
    is_between(b'a', octet, b'z')
        | is_between(b'A', octet, b'Z')
        | is_between(b'0', octet, b'9')
        | (octet == b'.')
        | (octet == b'-')
        | (octet == b'_')
}

fn is_address(octet: u8) -> bool
    ensures { result ≡ is_address_octet octet }
{
    is_between(0x21, octet, 0x7e) & (octet != b'#')
}

/// Whether each octet is a letter or a digit of ASCII, `.`, `-` or `_`.
#[tactic(auto, using(std::proofs::lemmas::List::Folds::list_all_more))]
pub(crate) fn are_names(octets: &[u8]) -> bool
    ensures test { result ≡ list_all is_name_octet octets.now }
    ensures each { IsTrue result ↔ AllPass is_name_octet octets.now }
{
    let mut all = true;
    for octet in octets {
        all &= is_name(*octet);
    }
    all
}

/// Whether each octet is a visible character of ASCII, 21 to 7E, but not `#`.
#[tactic(auto, using(std::proofs::lemmas::List::Folds::list_all_more))]
pub(crate) fn are_address_octets(octets: &[u8]) -> bool
    ensures test { result ≡ list_all is_address_octet octets.now }
    ensures each { IsTrue result ↔ AllPass is_address_octet octets.now }
{
    let mut all = true;
    for octet in octets {
        all &= is_address(*octet);
    }
    all
}
