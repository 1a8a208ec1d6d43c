//! The eIM list: a list of records, of which not every two may stand together.

ghost use Rattle.std.specs.Prelude.{◌≡◌, ◌≤◌, ◌+◌, ◌*◌, ◌++◌, List, Some, take, length};
ghost use Rattle.std.specs.Prelude.{OnOk, OnErr, IfOk, IsErrOf};
ghost use Rattle.sgp_der.specs.Fields.{Gives};
ghost use Rattle.sgp_fields.specs.Laws.{SpellsNone};
ghost use Rattle.small_card.specs.Ranges.{IsEimList};
ghost use Rattle.small_card.specs.declared.types.EimLine.{EimLine};
ghost use Rattle.result_codec.specs.Reading.{eim_line_fields, eim_lines_at};
ghost use Rattle.result_codec.specs.Spelling.{eim_line_content, eim_lines};

use crate::tags::GREATEST_ASSOCIATION;
use crate::tags::eim_line::{ADDRESS, ASSOCIATION, COUNTER, EIM_ID, LINE};
use iot_bytes::{NoMemory, ReadError, Row};
use sgp_der::{put_head, put_octets, put_uint};
use sgp_fields::{
    Fields, Listed, Written, element_len, field_len, list, list_len, number_len, write_list,
};
use sgp_values::{Address, EimId};
use small_card::limits::{GREATEST_COUNTER, MOST_EIMS};
use small_card::{EimLine, are_all_apart};
use std::alloc::Global;

#[tactic(auto, unfolding(crate::specs::Reading::eim_line_fields))]
fn line_from(content: &[u8]) -> Result<EimLine, ReadError>
    ensures { Gives result (eim_line_fields content.now) }
{
    let mut fields = Fields::of(content);
    let id = fields.value::<EimId>(EIM_ID)?;
    let address = fields.value::<Address>(ADDRESS)?;
    let association = fields.number(ASSOCIATION, 1, GREATEST_ASSOCIATION)?;
    let counter = fields.last_number(COUNTER, 0, GREATEST_COUNTER)?;
    Ok(EimLine {
        id,
        address,
        association: association as u32,
        counter,
    })
}

#[tactic(auto, unfolding(crate::specs::Spelling::eim_line_content), using(sgp_fields::proofs::Appending::length_both))]
fn content_len(e: &EimLine) -> usize
    ensures len { result ≡ length (eim_line_content e.now) }
    ensures few { result ≤ 294 }
{
    field_len(e.id.octets())
        + field_len(e.address.octets())
        + number_len(u64::from(e.association))
        + number_len(e.counter)
}

/// A line as one element.
struct Entry;

impl Listed<EimLine> for Entry {
    ghost use Rattle.result_codec.specs.Reading.{eim_line_of};

    ghost entry_of = { eim_line_of };

    fn read(_alloc: Global, tag: u8, content: &[u8]) -> Result<EimLine, ReadError> {
        match tag {
            LINE => line_from(content),
            _ => Err(ReadError::Malformed),
        }
    }
}

impl Written<EimLine> for Entry {
    ghost use Rattle.small_card.specs.Ranges.{IsEimLine};
    ghost use Rattle.result_codec.specs.Spelling.{eim_line};

    ghost spelled = { eim_line };

    ghost Fits = { IsEimLine };

    ghost most = { 283 };

    #[tactic(auto, unfolding(crate::specs::Spelling::eim_line))]
    fn len(e: &EimLine) -> usize {
        element_len(content_len(e))
    }

    #[tactic(auto, unfolding(crate::specs::Spelling::eim_line, crate::specs::Spelling::eim_line_content), using(sgp_fields::proofs::Appending::appended))]
    fn put(out: &mut Row<u8>, e: &EimLine) -> Result<(), NoMemory> {
        put_head(out, LINE, content_len(e))?;
        put_octets(out, EIM_ID, e.id.octets())?;
        put_octets(out, ADDRESS, e.address.octets())?;
        put_uint(out, ASSOCIATION, u64::from(e.association))?;
        put_uint(out, COUNTER, e.counter)
    }
}

#[tactic(auto, unfolding(crate::specs::Reading::eim_lines_at))]
fn eim_list(alloc: Global, content: &[u8]) -> Result<Row<EimLine>, ReadError>
    ensures { Gives result (eim_lines_at content.now) }
{
    let rows = list::<EimLine, Entry>(alloc, content, MOST_EIMS)?;
    if are_all_apart(rows.as_slice()) {
        Ok(rows)
    } else {
        Err(ReadError::Malformed)
    }
}

/// The lines of an eIM list that the octets spell, one element behind the other: at most 8, with
/// distinct identifiers and distinct associations.
///
/// # Errors
/// `Malformed` where the octets are no such list.
pub fn read_eim_lines(alloc: Global, content: &[u8]) -> Result<Row<EimLine>, ReadError>
    // What is read is spelled so.
    ensures found { IfOk result (λ es. IsEimList es × (content.now ≡ eim_lines es)) }
    // What is spelled so is read, unless memory runs out.
    ensures only { (es : List EimLine) → IsEimList es → content.now ≡ eim_lines es
        → Gives result (Some es) }
    // Malformed comes only where nothing is spelled so.
    ensures malformed { IsErrOf result ReadError.Malformed
        → SpellsNone eim_lines IsEimList content.now }
    // The reading word, for callers that compose it.
    ensures exact { Gives result (eim_lines_at content.now) }
{
    eim_list(alloc, content)
}

/// How many octets [`write_eim_lines`] appends. It takes no memory.
pub fn eim_lines_len(rows: &[EimLine]) -> usize
    requires { IsEimList rows.now }
    ensures len { result ≡ length (eim_lines rows.now) }
    ensures few { result ≤ 2264 }
{
    list_len::<EimLine, Entry>(rows)
}

/// Appends the lines, one element behind the other, or nothing where memory runs out.
pub fn write_eim_lines(rows: &[EimLine], out: &mut Row<u8>) -> Result<(), NoMemory>
    requires { IsEimList rows.now }
    ensures ok { OnOk result (out.new ≡ out.old ++ eim_lines rows.now) }
    ensures err { OnErr result (out.new ≡ out.old) }
{
    write_list::<EimLine, Entry>(out, rows)
}
