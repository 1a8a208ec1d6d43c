ghost use Rattle.std.specs.Prelude.{◌≡◌, ◌≢◌, ◌≤◌, ◌%◌, ◌+◌, ◌++◌, ◌∷◌, length, take, OnOk, OnErr};
ghost use Rattle.sgp_der.specs.Element.{len_octets, element, IsTag};
ghost use Rattle.sgp_der.specs.Number.{uint};

use crate::form::{
    FROM_ONE_OCTET, FROM_THREE_OCTETS, FROM_TWO_OCTETS, MOST_CONTENT, MOST_HEAD, ONE_OCTET,
    THREE_OCTETS, TWO_OCTETS,
};
use crate::number::{FROM_TWO, MOST_UINT, uint_len};
use iot_bytes::{NoMemory, Row};

/// How many octets stand before a content of this length: its tag and length.
#[tactic(auto, unfolding(crate::specs::Element::len_octets))]
pub fn head_len(len: usize) -> usize
    requires { len ≤ MOST_CONTENT }
    ensures len { result ≡ 1 + length (len_octets len) }
    ensures few { result ≤ MOST_HEAD }
{
    if len < FROM_ONE_OCTET {
        2
    } else if len < FROM_TWO_OCTETS {
        3
    } else if len < FROM_THREE_OCTETS {
        4
    } else {
        5
    }
}

/// Appends the tag and the length of an element, or nothing where memory runs
/// out.
#[tactic(auto, unfolding(crate::specs::Element::len_octets))]
pub fn put_head(out: &mut Row<u8>, tag: u8, len: usize) -> Result<(), NoMemory>
    requires tag { IsTag tag }
    requires len { len ≤ MOST_CONTENT }
    ensures ok { OnOk result (out.new ≡ out.old ++ tag ∷ len_octets len) }
    ensures len { length out.new ≤ length out.old + MOST_HEAD }
    ensures err { OnErr result (out.new ≡ out.old) }
{
    if len < FROM_ONE_OCTET {
        out.append(&[tag, len as u8])
    } else if len < FROM_TWO_OCTETS {
        out.append(&[tag, ONE_OCTET, len as u8])
    } else if len < FROM_THREE_OCTETS {
        out.append(&[tag, TWO_OCTETS, (len / 256) as u8, (len % 256) as u8])
    } else {
        out.append(&[
            tag,
            THREE_OCTETS,
            (len / 65536) as u8,
            (len / 256 % 256) as u8,
            (len % 256) as u8,
        ])
    }
}

/// Appends the element of this tag and content, or nothing where memory runs
/// out.
#[tactic(auto, unfolding(crate::specs::Element::element))]
pub fn put_octets(out: &mut Row<u8>, tag: u8, content: &[u8]) -> Result<(), NoMemory>
    requires tag { IsTag tag }
    requires len { length content.now ≤ MOST_CONTENT }
    ensures ok { OnOk result (out.new ≡ out.old ++ element tag content.now) }
    ensures len { length out.new ≤ length out.old + length content.now + MOST_HEAD }
    ensures err { OnErr result (out.new ≡ out.old) }
{
    let before = out.len();
    put_head(out, tag, content.len())?;
    if out.append(content).is_err() {
        out.cut(before);
        return Err(NoMemory);
    }
    Ok(())
}

// Appends the octets of the number, or some of them where memory runs out.
fn put_number(out: &mut Row<u8>, n: u64) -> Result<(), NoMemory>
    ensures ok { OnOk result (out.new ≡ out.old ++ uint n) }
    ensures err { OnErr result (take (length out.old) out.new ≡ out.old) }
{
    if n >= FROM_TWO {
        put_number(out, n / 256)?;
    }
    out.append(&[(n % 256) as u8])
}

/// Appends the element of this tag whose content is the integer, or nothing
/// where memory runs out.
#[tactic(auto, unfolding(crate::specs::Element::element))]
pub fn put_uint(out: &mut Row<u8>, tag: u8, n: u64) -> Result<(), NoMemory>
    requires { IsTag tag }
    ensures ok { OnOk result (out.new ≡ out.old ++ element tag (uint n)) }
    ensures len { length out.new ≤ length out.old + 2 + MOST_UINT }
    ensures err { OnErr result (out.new ≡ out.old) }
{
    let before = out.len();
    put_head(out, tag, uint_len(n))?;
    if put_number(out, n).is_err() {
        out.cut(before);
        return Err(NoMemory);
    }
    Ok(())
}
