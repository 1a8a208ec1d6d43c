//! Messages to eIMs: the octets of each are one element, whose tag says which it is.

ghost use Rattle.std.specs.Prelude.{◌≡◌, ◌≤◌, ◌+◌, ◌++◌, Some, length, take};
ghost use Rattle.std.specs.Prelude.{IfOk, IsErrOf, OnOk, OnErr};
ghost use Rattle.sgp_der.specs.Fields.{Gives};
ghost use Rattle.sgp_fields.specs.Alone.{made_of};
ghost use Rattle.sgp_fields.specs.Fields.{last_at};
ghost use Rattle.sgp_fields.specs.Laws.{SpellsNone};
ghost use Rattle.sgp_values.specs.Reading.{eid_of};
ghost use Rattle.result_codec.specs.Reading.{result_at, refusal_of};
ghost use Rattle.esipa_codec.specs.Ranges.{IsToEim};
ghost use Rattle.esipa_codec.specs.Reading.{to_eim_at};
ghost use Rattle.esipa_codec.specs.Spelling.{poll_content, to_eim};
ghost use Rattle.esipa_codec.specs.declared.messages.ToEim.{ToEim};

use crate::messages::ToEim;
use crate::tags::to_eim::{EID, POLL, REFUSED, RESULT};
use iot_bytes::{NoMemory, ReadError, Row};
use result_codec::{
    read_refusal, read_result, refusal_len, result_len, write_refusal, write_result,
};
use sgp_der::{put_head, put_octets};
use sgp_fields::{Fields, Listed, Written, element_len, field_len, whole, write};
use sgp_values::Eid;
use std::alloc::Global;

fn poll(content: &[u8]) -> Result<ToEim, ReadError>
    ensures { Gives result (made_of (λ c. last_at eid_of 0x80 c) ToEim.Poll content.now) }
{
    let eid = Fields::of(content).last::<Eid>(EID)?;
    Ok(ToEim::Poll { eid })
}

fn carried_result(alloc: Global, content: &[u8]) -> Result<ToEim, ReadError>
    ensures { Gives result (made_of result_at ToEim.Result content.now) }
{
    Ok(ToEim::Result(read_result(alloc, content)?))
}

fn refused(content: &[u8]) -> Result<ToEim, ReadError>
    ensures { Gives result (made_of refusal_of ToEim.Refused content.now) }
{
    Ok(ToEim::Refused(read_refusal(content)?))
}

/// A message to an eIM as one element.
struct ToEimElement;

impl Listed<ToEim> for ToEimElement {
    ghost use Rattle.esipa_codec.specs.Reading.{to_eim_of};

    ghost entry_of = { to_eim_of };

    #[tactic(auto, unfolding(crate::specs::Reading::to_eim_of))]
    fn read(alloc: Global, tag: u8, content: &[u8]) -> Result<ToEim, ReadError> {
        match tag {
            POLL => poll(content),
            RESULT => carried_result(alloc, content),
            REFUSED => refused(content),
            _ => Err(ReadError::Malformed),
        }
    }
}

#[tactic(auto, unfolding(crate::specs::Reading::to_eim_at))]
fn read_whole(alloc: Global, bytes: &[u8]) -> Result<ToEim, ReadError>
    ensures { Gives result (to_eim_at bytes.now) }
{
    whole::<ToEim, ToEimElement>(alloc, bytes)
}

/// The message to an eIM that the octets spell.
///
/// # Errors
/// `Malformed` where the octets spell no such message.
pub fn read_to_eim(alloc: Global, bytes: &[u8]) -> Result<ToEim, ReadError>
    // What is read is spelled so.
    ensures found { IfOk result (λ m. IsToEim m × (bytes.now ≡ to_eim m)) }
    // What is spelled so is read, unless memory runs out.
    ensures only { (m : ToEim) → IsToEim m → bytes.now ≡ to_eim m → Gives result (Some m) }
    // Malformed comes only where nothing is spelled so.
    ensures malformed { IsErrOf result ReadError.Malformed → SpellsNone to_eim IsToEim bytes.now }
    // The reading word, for callers that compose it.
    ensures exact { Gives result (to_eim_at bytes.now) }
{
    read_whole(alloc, bytes)
}

#[tactic(auto, unfolding(crate::specs::Spelling::poll_content))]
fn poll_len(eid: &Eid) -> usize
    ensures len { result ≡ length (poll_content eid.now) }
    ensures few { result ≤ 21 }
{
    field_len(eid.octets())
}

#[tactic(auto, unfolding(crate::specs::Spelling::poll_content))]
fn put_poll(out: &mut Row<u8>, eid: &Eid) -> Result<(), NoMemory>
    ensures ok { OnOk result (out.new ≡ out.old ++ poll_content eid.now) }
    ensures err { OnErr result (take (length out.old) out.new ≡ out.old) }
{
    put_octets(out, EID, eid.octets())
}

impl Written<ToEim> for ToEimElement {
    ghost use Rattle.esipa_codec.specs.Ranges.{IsToEim};
    ghost use Rattle.esipa_codec.specs.Spelling.{to_eim};

    ghost spelled = { to_eim };

    ghost Fits = { IsToEim };

    ghost most = { 18314 };

    #[tactic(auto, unfolding(crate::specs::Spelling::to_eim, crate::specs::Ranges::IsToEim))]
    fn len(message: &ToEim) -> usize {
        match message {
            ToEim::Poll { eid } => element_len(poll_len(eid)),
            ToEim::Result(r) => element_len(result_len(r)),
            ToEim::Refused(r) => element_len(refusal_len(r)),
        }
    }

    #[tactic(auto, unfolding(crate::specs::Spelling::to_eim, crate::specs::Ranges::IsToEim), using(sgp_fields::proofs::Appending::headed, sgp_fields::proofs::Appending::kept_before))]
    fn put(out: &mut Row<u8>, message: &ToEim) -> Result<(), NoMemory> {
        match message {
            ToEim::Poll { eid } => {
                put_head(out, POLL, poll_len(eid))?;
                put_poll(out, eid)
            }
            ToEim::Result(r) => {
                put_head(out, RESULT, result_len(r))?;
                write_result(r, out)
            }
            ToEim::Refused(r) => {
                put_head(out, REFUSED, refusal_len(r))?;
                write_refusal(r, out)
            }
        }
    }
}

/// How many octets [`write_to_eim`] appends. It takes no memory.
#[tactic(auto, using(crate::proofs::ToEimCodec::to_eim_few))]
pub fn to_eim_len(message: &ToEim) -> usize
    requires { IsToEim message.now }
    ensures len { result ≡ length (to_eim message.now) }
    ensures few { result ≤ 18313 }
{
    ToEimElement::len(message)
}

/// Appends the one spelling of the message, or nothing where memory runs out.
pub fn write_to_eim(message: &ToEim, out: &mut Row<u8>) -> Result<(), NoMemory>
    requires { IsToEim message.now }
    ensures ok { OnOk result (out.new ≡ out.old ++ to_eim message.now) }
    ensures err { OnErr result (out.new ≡ out.old) }
{
    write::<ToEim, ToEimElement>(out, message)
}
