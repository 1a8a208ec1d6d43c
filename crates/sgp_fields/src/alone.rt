//! Contents that are one number, and elements without a content.

ghost use Rattle.std.specs.Prelude.{◌≡◌, ◌≤◌, ◌++◌, length, take, IfOk, OnOk, OnErr};
ghost use Rattle.sgp_der.specs.Element.{element, IsTag};
ghost use Rattle.sgp_fields.specs.Fields.{Finds};
ghost use Rattle.sgp_fields.specs.Alone.{empty_of, number_alone, number_alone_of};

use crate::fields::Fields;
use crate::lengths::number_len;
use iot_bytes::{NoMemory, ReadError, Row};
use sgp_der::{put_head, put_uint};

/// The tag of the field.
const NUMBER: u8 = 0x80;

/// The number from the least to the greatest that is the one field of the content.
pub fn number_alone(content: &[u8], least: u64, greatest: u64) -> Result<u64, ReadError>
    ensures value { Finds result (number_alone_of least greatest content.now) }
    ensures range { IfOk result (λ n. (least ≤ n) × (n ≤ greatest)) }
{
    Fields::of(content).last_number(NUMBER, least, greatest)
}

/// How many octets the content has. It takes no memory.
pub fn number_alone_len(n: u64) -> usize
    ensures len { result ≡ length (number_alone n) }
    ensures few { result ≤ 14 }
{
    number_len(n)
}

/// Appends the element of this tag with that content, or a part of it where memory runs out.
#[tactic(auto, using(crate::proofs::Appending::appended))]
pub fn put_number_alone(out: &mut Row<u8>, tag: u8, n: u64) -> Result<(), NoMemory>
    requires { IsTag tag }
    ensures ok { OnOk result (out.new ≡ out.old ++ element tag (number_alone n)) }
    ensures err { OnErr result (take (length out.old) out.new ≡ out.old) }
{
    put_head(out, tag, number_alone_len(n))?;
    put_uint(out, NUMBER, n)
}

/// The value, where the content is empty: that of an element without a content.
#[tactic(auto, unfolding(crate::specs::Values::mark_of))]
pub fn when_empty<T: Drop>(content: &[u8], value: T) -> Result<T, ReadError>
    ensures { Finds result (empty_of value content.now) }
{
    Fields::of(content).end()?;
    Ok(value)
}
