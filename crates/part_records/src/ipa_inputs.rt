//! What comes to an assistant. Each is one line of [`Record`]'s reader.

ghost use Rattle.std.specs.Prelude.{◌≡◌, Some, ◌≤◌, length};
ghost use Rattle.std.specs.Prelude.{IfOk, IsErrOf};
ghost use Rattle.iot_bytes.specs.declared.frame.TheConstants.{FRAME_LIMIT};
ghost use Rattle.sgp_der.specs.Fields.{Gives};
ghost use Rattle.sgp_fields.specs.Alone.{made_of};
ghost use Rattle.sgp_fields.specs.Laws.{SpellsNone};
ghost use Rattle.sgp_fields.specs.Values.{flag_of};
ghost use Rattle.sgp_values.specs.Reading.{eim_id_of};
ghost use Rattle.es10_codec.specs.Reading.{answer_at};
ghost use Rattle.part_records.specs.Ranges.{IsIpaInput};
ghost use Rattle.part_records.specs.Reading.{message_of, ipa_input_at};
ghost use Rattle.part_records.specs.Spelling.{ipa_input, IsFramable};
ghost use Rattle.part_records.specs.declared.records.IpaInput.{IpaInput};

use crate::records::IpaInput;
use crate::tags::ipa_input::{ANSWER, MESSAGE, POLL, PROBE, PUSH, RESTART};
use crate::tags::message::{INSIDE, SENDER, VERDICT};
use es10_codec::read_answer;
use esipa_codec::read_to_ipa;
use iot_bytes::{FRAME_LIMIT, ReadError};
use sgp_fields::{Content, Fields, Listed, when_empty, whole};
use sgp_values::EimId;
use std::alloc::Global;

#[tactic(auto, unfolding(crate::specs::Reading::message_of, sgp_fields::specs::Fields::last_at))]
fn message(alloc: Global, content: &[u8]) -> Result<IpaInput, ReadError>
    ensures { Gives result (message_of content.now) }
{
    let mut fields = Fields::of(content);
    let from = fields.value::<EimId>(SENDER)?;
    let good = fields.value::<bool>(VERDICT)?;
    let inside = fields.last_content(INSIDE)?;
    let message = read_to_ipa(alloc, inside)?;
    Ok(IpaInput::Message {
        from,
        good,
        message,
    })
}

fn probe(content: &[u8]) -> Result<IpaInput, ReadError>
    ensures { Gives result (made_of flag_of IpaInput.Probe content.now) }
{
    let passed = <bool as Content>::of_content(content).ok_or(ReadError::Malformed)?;
    Ok(IpaInput::Probe(passed))
}

fn answered(alloc: Global, content: &[u8]) -> Result<IpaInput, ReadError>
    ensures { Gives result (made_of answer_at IpaInput.Answered content.now) }
{
    Ok(IpaInput::Answered(read_answer(alloc, content)?))
}

fn poll(content: &[u8]) -> Result<IpaInput, ReadError>
    ensures { Gives result (made_of eim_id_of IpaInput.Poll content.now) }
{
    let id = <EimId as Content>::of_content(content).ok_or(ReadError::Malformed)?;
    Ok(IpaInput::Poll(id))
}

/// What comes to an assistant, as one element.
struct Record;

impl Listed<IpaInput> for Record {
    ghost use Rattle.part_records.specs.Reading.{ipa_input_of};

    ghost entry_of = { ipa_input_of };

    #[tactic(auto, unfolding(crate::specs::Reading::ipa_input_of))]
    fn read(alloc: Global, tag: u8, content: &[u8]) -> Result<IpaInput, ReadError> {
        match tag {
            MESSAGE => message(alloc, content),
            PROBE => probe(content),
            RESTART => when_empty(content, IpaInput::Restart),
            PUSH => when_empty(content, IpaInput::Push),
            ANSWER => answered(alloc, content),
            POLL => poll(content),
            _ => Err(ReadError::Malformed),
        }
    }
}

#[tactic(auto, unfolding(crate::specs::Reading::ipa_input_at))]
fn input_from(alloc: Global, bytes: &[u8]) -> Result<IpaInput, ReadError>
    ensures { Gives result (ipa_input_at bytes.now) }
{
    if bytes.len() > FRAME_LIMIT as usize {
        return Err(ReadError::Malformed);
    }
    whole::<IpaInput, Record>(alloc, bytes)
}

/// What the octets are that come to an assistant. They are those of a frame: more octets than a
/// frame has spell nothing.
///
/// # Errors
/// `Malformed` where the octets spell nothing that comes to one.
pub fn read_ipa_input(alloc: Global, bytes: &[u8]) -> Result<IpaInput, ReadError>
    // What is read is spelled so.
    ensures found { IfOk result (λ x. IsIpaInput x × (bytes.now ≡ ipa_input x)) }
    ensures short { IfOk result (λ x. length (ipa_input x) ≤ FRAME_LIMIT) }
    // What is spelled so is read, unless memory runs out.
    ensures only { (x : IpaInput) → IsFramable x → bytes.now ≡ ipa_input x
        → Gives result (Some x) }
    // Malformed comes only where nothing is spelled so.
    ensures malformed { IsErrOf result ReadError.Malformed
        → SpellsNone ipa_input IsFramable bytes.now }
    // The reading word, for callers that compose it.
    ensures exact { Gives result (ipa_input_at bytes.now) }
{
    input_from(alloc, bytes)
}
