//! What comes to a manager. Each is one line of [`Record`]'s reader; what has no other tag may be
//! an order, which is the operations of a package.

ghost use Rattle.std.specs.Prelude.{◌≡◌, Some};
ghost use Rattle.std.specs.Prelude.{IfOk, IsErrOf};
ghost use Rattle.sgp_der.specs.Fields.{Gives};
ghost use Rattle.sgp_fields.specs.Alone.{made_of};
ghost use Rattle.sgp_fields.specs.Laws.{SpellsNone};
ghost use Rattle.package_codec.specs.Reading.{body_of};
ghost use Rattle.esipa_codec.specs.Reading.{to_eim_at};
ghost use Rattle.part_records.specs.Ranges.{IsEimInput};
ghost use Rattle.part_records.specs.Reading.{bind_of, eim_input_at};
ghost use Rattle.part_records.specs.Spelling.{eim_input};
ghost use Rattle.part_records.specs.declared.records.EimInput.{EimInput};

use crate::records::EimInput;
use crate::tags::bind::{ASSOCIATION, LAST};
use crate::tags::eim_input::{BIND, MESSAGE, SKIP};
use esipa_codec::read_to_eim;
use iot_bytes::ReadError;
use package_codec::BodyEntry;
use sgp_fields::{Fields, Listed, when_empty, whole};
use small_card::limits::{GREATEST_ASSOCIATION, GREATEST_COUNTER};
use std::alloc::Global;

#[tactic(auto, unfolding(crate::specs::Reading::bind_of))]
fn bind(content: &[u8]) -> Result<EimInput, ReadError>
    ensures { Gives result (bind_of content.now) }
{
    let mut fields = Fields::of(content);
    let association = fields.number(ASSOCIATION, 1, u64::from(GREATEST_ASSOCIATION))?;
    let last = fields.last_number(LAST, 0, GREATEST_COUNTER)?;
    Ok(EimInput::Bind {
        association: association as u32,
        last,
    })
}

fn message(alloc: Global, content: &[u8]) -> Result<EimInput, ReadError>
    ensures { Gives result (made_of to_eim_at EimInput.Message content.now) }
{
    Ok(EimInput::Message(read_to_eim(alloc, content)?))
}

fn order(alloc: Global, tag: u8, content: &[u8]) -> Result<EimInput, ReadError>
    ensures { Gives result (made_of (body_of tag) EimInput.Order content.now) }
{
    Ok(EimInput::Order(BodyEntry::read(alloc, tag, content)?))
}

/// What comes to a manager, as one element.
struct Record;

impl Listed<EimInput> for Record {
    ghost use Rattle.part_records.specs.Reading.{eim_input_of};

    ghost entry_of = { eim_input_of };

    #[tactic(auto, unfolding(crate::specs::Reading::eim_input_of))]
    fn read(alloc: Global, tag: u8, content: &[u8]) -> Result<EimInput, ReadError> {
        match tag {
            BIND => bind(content),
            SKIP => when_empty(content, EimInput::Skip),
            MESSAGE => message(alloc, content),
            _ => order(alloc, tag, content),
        }
    }
}

#[tactic(auto, unfolding(crate::specs::Reading::eim_input_at))]
fn input_from(alloc: Global, bytes: &[u8]) -> Result<EimInput, ReadError>
    ensures { Gives result (eim_input_at bytes.now) }
{
    whole::<EimInput, Record>(alloc, bytes)
}

/// What the octets are that come to a manager.
///
/// # Errors
/// `Malformed` where the octets spell nothing that comes to one.
pub fn read_eim_input(alloc: Global, bytes: &[u8]) -> Result<EimInput, ReadError>
    // What is read is spelled so.
    ensures found { IfOk result (λ x. IsEimInput x × (bytes.now ≡ eim_input x)) }
    // What is spelled so is read, unless memory runs out.
    ensures only { (x : EimInput) → IsEimInput x → bytes.now ≡ eim_input x
        → Gives result (Some x) }
    // Malformed comes only where nothing is spelled so.
    ensures malformed { IsErrOf result ReadError.Malformed
        → SpellsNone eim_input IsEimInput bytes.now }
    // The reading word, for callers that compose it.
    ensures exact { Gives result (eim_input_at bytes.now) }
{
    input_from(alloc, bytes)
}
