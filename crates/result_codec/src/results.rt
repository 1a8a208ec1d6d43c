//! Results as octets: the fields in order, and the whole as one element.

ghost use Rattle.std.specs.Prelude.{◌≡◌, ◌≤◌, ◌+◌, ◌++◌, Some, take, length};
ghost use Rattle.std.specs.Prelude.{OnOk, OnErr, IfOk, IsErrOf};
ghost use Rattle.sgp_der.specs.Element.{element};
ghost use Rattle.sgp_der.specs.Fields.{Gives};
ghost use Rattle.sgp_fields.specs.Laws.{SpellsNone};
ghost use Rattle.small_card.specs.Lists.{Every};
ghost use Rattle.small_card.specs.Ranges.{IsItem, IsResult};
ghost use Rattle.small_card.specs.declared.types.PackageResult.{PackageResult};
ghost use Rattle.result_codec.specs.Reading.{result_of, result_at};
ghost use Rattle.result_codec.specs.Spelling.{items, result_content, result as spelled};

use crate::items::{items_len, put_items, read_items};
use crate::tags::result::{ASSOCIATION, COUNTER, EIM_ID, ITEMS, RESULT, ROLLED, SEQ};
use crate::tags::{GREATEST_ASSOCIATION, GREATEST_SEQ};
use iot_bytes::{NoMemory, ReadError, Row};
use sgp_der::{put_head, put_octets, put_uint};
use sgp_fields::{Fields, Written, element_len, field_len, mark_len, number_len, put_mark, write};
use sgp_values::EimId;
use small_card::limits::GREATEST_COUNTER;
use small_card::{Item, PackageResult};
use std::alloc::Global;

#[tactic(auto, unfolding(crate::specs::Reading::result_of))]
fn result_from(alloc: Global, content: &[u8]) -> Result<PackageResult, ReadError>
    ensures { Gives result (result_of content.now) }
{
    let mut fields = Fields::of(content);
    let seq = fields.number(SEQ, 1, GREATEST_SEQ)?;
    let eim = fields.value::<EimId>(EIM_ID)?;
    let association = fields.number(ASSOCIATION, 1, GREATEST_ASSOCIATION)?;
    let counter = fields.number(COUNTER, 1, GREATEST_COUNTER)?;
    let inner = fields.content(ITEMS)?;
    let items = read_items(alloc, inner)?;
    let rolled = fields.last_mark(ROLLED)?;
    Ok(PackageResult {
        seq: seq as u32,
        eim,
        association: association as u32,
        counter,
        items,
        rolled,
    })
}

/// The package result whose fields the octets are, for readers that have found its element.
///
/// # Errors
/// `Malformed` where the octets aren't the fields of a result.
pub fn read_result_content(alloc: Global, content: &[u8]) -> Result<PackageResult, ReadError>
    // What is read is spelled so.
    ensures found { IfOk result (λ r. IsResult r × (content.now ≡ result_content r)) }
    // What is spelled so is read, unless memory runs out.
    ensures only { (r : PackageResult) → IsResult r → content.now ≡ result_content r
        → Gives result (Some r) }
    // Malformed comes only where nothing is spelled so.
    ensures malformed { IsErrOf result ReadError.Malformed
        → SpellsNone result_content IsResult content.now }
    // The reading word, for callers that compose it.
    ensures exact { Gives result (result_of content.now) }
{
    result_from(alloc, content)
}

#[tactic(auto, unfolding(crate::specs::Reading::result_at, sgp_fields::specs::Fields::last_at))]
fn whole(alloc: Global, bytes: &[u8]) -> Result<PackageResult, ReadError>
    ensures { Gives result (result_at bytes.now) }
{
    let content = Fields::of(bytes).last_content(RESULT)?;
    result_from(alloc, content)
}

/// The package result that the octets spell (SGP.32, eUICC Package Result).
///
/// # Errors
/// `Malformed` where the octets spell no result.
pub fn read_result(alloc: Global, bytes: &[u8]) -> Result<PackageResult, ReadError>
    // What is read is spelled so.
    ensures found { IfOk result (λ r. IsResult r × (bytes.now ≡ spelled r)) }
    // What is spelled so is read, unless memory runs out.
    ensures only { (r : PackageResult) → IsResult r → bytes.now ≡ spelled r
        → Gives result (Some r) }
    // Malformed comes only where nothing is spelled so.
    ensures malformed { IsErrOf result ReadError.Malformed → SpellsNone spelled IsResult bytes.now }
    // The reading word, for callers that compose it.
    ensures exact { Gives result (result_at bytes.now) }
{
    whole(alloc, bytes)
}

#[tactic(auto, unfolding(crate::specs::Spelling::result_content), using(sgp_fields::proofs::Appending::length_both))]
fn content_len(r: &PackageResult) -> usize
    requires { IsResult r.now }
    ensures len { result ≡ length (result_content r.now) }
    ensures few { result ≤ 18400 }
{
    number_len(u64::from(r.seq))
        + field_len(r.eim.octets())
        + number_len(u64::from(r.association))
        + number_len(r.counter)
        + element_len(items_len(r.items.as_slice()))
        + mark_len(r.rolled)
}

#[tactic(auto, using(sgp_fields::proofs::Appending::headed, sgp_fields::proofs::Appending::kept_before))]
fn put_item_field(out: &mut Row<u8>, rows: &[Item]) -> Result<(), NoMemory>
    requires few { length rows.now ≤ 8 }
    requires each { Every IsItem rows.now }
    ensures ok { OnOk result (out.new ≡ out.old ++ element 0xa4 (items rows.now)) }
    ensures err { OnErr result (take (length out.old) out.new ≡ out.old) }
{
    put_head(out, ITEMS, items_len(rows))?;
    put_items(out, rows)
}

/// A result as one element.
struct Entry;

impl Written<PackageResult> for Entry {
    ghost spelled = { spelled };

    ghost Fits = { IsResult };

    ghost most = { 18309 };

    #[tactic(auto, unfolding(crate::specs::Spelling::result))]
    fn len(r: &PackageResult) -> usize {
        element_len(content_len(r))
    }

    #[tactic(auto, unfolding(crate::specs::Spelling::result, crate::specs::Spelling::result_content), using(sgp_fields::proofs::Appending::appended))]
    fn put(out: &mut Row<u8>, r: &PackageResult) -> Result<(), NoMemory> {
        put_head(out, RESULT, content_len(r))?;
        put_uint(out, SEQ, u64::from(r.seq))?;
        put_octets(out, EIM_ID, r.eim.octets())?;
        put_uint(out, ASSOCIATION, u64::from(r.association))?;
        put_uint(out, COUNTER, r.counter)?;
        put_item_field(out, r.items.as_slice())?;
        put_mark(out, ROLLED, r.rolled)
    }
}

/// How many octets [`write_result`] appends. It takes no memory.
pub fn result_len(kept: &PackageResult) -> usize
    requires { IsResult kept.now }
    ensures len { result ≡ length (spelled kept.now) }
    ensures few { result ≤ 18309 }
{
    <Entry as Written<PackageResult>>::len(kept)
}

/// Appends the one spelling of the result, or nothing where memory runs out.
pub fn write_result(kept: &PackageResult, out: &mut Row<u8>) -> Result<(), NoMemory>
    requires { IsResult kept.now }
    ensures ok { OnOk result (out.new ≡ out.old ++ spelled kept.now) }
    ensures err { OnErr result (out.new ≡ out.old) }
{
    write::<PackageResult, Entry>(out, kept)
}
