//! Messages to the assistant: the octets of each are one element, whose tag says which it is.

ghost use Rattle.std.specs.Prelude.{◌≡◌, ◌≤◌, ◌+◌, ◌++◌, ℕ, Some, length};
ghost use Rattle.std.specs.Prelude.{IfOk, IsErrOf, OnOk, OnErr};
ghost use Rattle.sgp_der.specs.Fields.{Gives};
ghost use Rattle.sgp_fields.specs.Alone.{made_of, number_alone_of};
ghost use Rattle.sgp_fields.specs.Laws.{SpellsNone};
ghost use Rattle.esipa_codec.specs.Ranges.{IsToIpa};
ghost use Rattle.esipa_codec.specs.Reading.{to_ipa_at};
ghost use Rattle.esipa_codec.specs.Spelling.{to_ipa};
ghost use Rattle.esipa_codec.specs.declared.messages.ToIpa.{ToIpa};

use crate::messages::ToIpa;
use crate::tags::to_ipa::{ACK, NOTHING, PACKAGE};
use iot_bytes::{NoMemory, ReadError, Row};
use sgp_der::put_octets;
use sgp_fields::{
    Listed, Written, element_len, field_len, number_alone, number_alone_len, put_number_alone,
    when_empty, whole, write,
};
use small_card::limits::GREATEST_SEQ;
use std::alloc::Global;

// The octets of a package are any, and are copied once.
fn carried_package(alloc: Global, content: &[u8]) -> Result<ToIpa, ReadError>
    ensures { Gives result (Some (ToIpa.Package content.now)) }
{
    let mut bytes = Row::new(alloc);
    bytes.append(content)?;
    Ok(ToIpa::Package(bytes))
}

fn ack(content: &[u8]) -> Result<ToIpa, ReadError>
    ensures { Gives result (made_of (number_alone_of 1 4294967295) ToIpa.Ack content.now) }
{
    let seq = number_alone(content, 1, u64::from(GREATEST_SEQ))?;
    Ok(ToIpa::Ack { seq: seq as u32 })
}

/// A message to the assistant as one element.
struct ToIpaElement;

impl Listed<ToIpa> for ToIpaElement {
    ghost use Rattle.esipa_codec.specs.Reading.{to_ipa_of};

    ghost entry_of = { to_ipa_of };

    #[tactic(auto, unfolding(crate::specs::Reading::to_ipa_of))]
    fn read(alloc: Global, tag: u8, content: &[u8]) -> Result<ToIpa, ReadError> {
        match tag {
            PACKAGE => carried_package(alloc, content),
            NOTHING => when_empty(content, ToIpa::Nothing),
            ACK => ack(content),
            _ => Err(ReadError::Malformed),
        }
    }
}

#[tactic(auto, unfolding(crate::specs::Reading::to_ipa_at))]
fn read_whole(alloc: Global, bytes: &[u8]) -> Result<ToIpa, ReadError>
    ensures { Gives result (to_ipa_at bytes.now) }
{
    whole::<ToIpa, ToIpaElement>(alloc, bytes)
}

/// The message to the assistant that the octets spell. A package isn't read: its octets are copied.
///
/// # Errors
/// `Malformed` where the octets spell no such message.
pub fn read_to_ipa(alloc: Global, bytes: &[u8]) -> Result<ToIpa, ReadError>
    // What is read is spelled so.
    ensures found { IfOk result (λ m. IsToIpa m × (bytes.now ≡ to_ipa m)) }
    // What is spelled so is read, unless memory runs out.
    ensures only { (m : ToIpa) → IsToIpa m → bytes.now ≡ to_ipa m → Gives result (Some m) }
    // Malformed comes only where nothing is spelled so.
    ensures malformed { IsErrOf result ReadError.Malformed → SpellsNone to_ipa IsToIpa bytes.now }
    // The reading word, for callers that compose it.
    ensures exact { Gives result (to_ipa_at bytes.now) }
{
    read_whole(alloc, bytes)
}

impl Written<ToIpa> for ToIpaElement {
    ghost use Rattle.esipa_codec.specs.Ranges.{IsToIpa};
    ghost use Rattle.esipa_codec.specs.Spelling.{to_ipa};

    ghost spelled = { to_ipa };

    ghost Fits = { IsToIpa };

    ghost most = { 16777220 };

    #[tactic(auto, unfolding(crate::specs::Spelling::to_ipa, crate::specs::Ranges::IsToIpa))]
    fn len(message: &ToIpa) -> usize {
        match message {
            ToIpa::Package(bytes) => field_len(bytes.as_slice()),
            ToIpa::Nothing => element_len(0),
            ToIpa::Ack { seq } => element_len(number_alone_len(u64::from(*seq))),
        }
    }

    #[tactic(auto, unfolding(crate::specs::Spelling::to_ipa, crate::specs::Ranges::IsToIpa))]
    fn put(out: &mut Row<u8>, message: &ToIpa) -> Result<(), NoMemory> {
        match message {
            ToIpa::Package(bytes) => put_octets(out, PACKAGE, bytes.as_slice()),
            ToIpa::Nothing => put_octets(out, NOTHING, &[]),
            ToIpa::Ack { seq } => put_number_alone(out, ACK, u64::from(*seq)),
        }
    }
}

/// How many octets [`write_to_ipa`] appends. It takes no memory.
pub fn to_ipa_len(message: &ToIpa) -> usize
    requires { IsToIpa message.now }
    ensures len { result ≡ length (to_ipa message.now) }
    ensures few { result ≤ 16777220 }
{
    ToIpaElement::len(message)
}

/// Appends the one spelling of the message, or nothing where memory runs out.
pub fn write_to_ipa(message: &ToIpa, out: &mut Row<u8>) -> Result<(), NoMemory>
    requires { IsToIpa message.now }
    ensures ok { OnOk result (out.new ≡ out.old ++ to_ipa message.now) }
    ensures err { OnErr result (out.new ≡ out.old) }
{
    write::<ToIpa, ToIpaElement>(out, message)
}
