//! Refusals of a package as contents: the code, the counter that is kept and the one that was
//! received. The tag is that of the record that carries them.

ghost use Rattle.std.specs.Prelude.{◌≡◌, ◌≤◌, ◌+◌, ◌++◌, Ok, take, length};
ghost use Rattle.std.specs.Prelude.{OnOk, OnErr, IfOk, IsErrOf};
ghost use Rattle.sgp_fields.specs.Fields.{Finds};
ghost use Rattle.sgp_fields.specs.Laws.{SpellsNone};
ghost use Rattle.small_card.specs.Ranges.{IsRefused};
ghost use Rattle.small_card.specs.declared.types.Refused.{Refused};
ghost use Rattle.result_codec.specs.Reading.{refusal_of};
ghost use Rattle.result_codec.specs.Spelling.{refusal};

use crate::tags::refusal::{CODE, KEPT, RECEIVED};
use iot_bytes::{NoMemory, ReadError, Row};
use sgp_der::put_uint;
use sgp_fields::{Fields, Written, number_len, write};
use small_card::Refused;
use small_card::codes::load;
use small_card::limits::GREATEST_COUNTER;

#[tactic(auto, unfolding(crate::specs::Reading::refusal_of))]
fn refusal_from(content: &[u8]) -> Result<Refused, ReadError>
    ensures { Finds result (refusal_of content.now) }
{
    let mut fields = Fields::of(content);
    let code = fields.number(CODE, 1, u64::from(load::TOO_LONG))?;
    let kept = fields.number(KEPT, 0, GREATEST_COUNTER)?;
    let received = fields.last_number(RECEIVED, 0, GREATEST_COUNTER)?;
    let code = code as u8;
    if code == load::REPLAY || kept == 0 && received == 0 {
        Ok(Refused {
            code,
            kept,
            received,
        })
    } else {
        Err(ReadError::Malformed)
    }
}

/// The refusal whose fields the octets are (SGP.32, a package that the card doesn't load). It
/// takes no memory.
///
/// # Errors
/// `Malformed` where the octets aren't the fields of a refusal.
pub fn read_refusal(content: &[u8]) -> Result<Refused, ReadError>
    // What is read is spelled so.
    ensures found { IfOk result (λ r. IsRefused r × (content.now ≡ refusal r)) }
    // What is spelled so is read.
    ensures only { (r : Refused) → IsRefused r → content.now ≡ refusal r → result ≡ Ok r }
    // Malformed comes only where nothing is spelled so.
    ensures malformed { IsErrOf result ReadError.Malformed
        → SpellsNone refusal IsRefused content.now }
    // The reading word, for callers that compose it; there is no other fault than Malformed.
    ensures exact { Finds result (refusal_of content.now) }
{
    refusal_from(content)
}

/// How many octets [`write_refusal`] appends. It takes no memory.
#[tactic(auto, unfolding(crate::specs::Spelling::refusal), using(sgp_fields::proofs::Appending::length_both))]
pub fn refusal_len(r: &Refused) -> usize
    ensures len { result ≡ length (refusal r.now) }
    ensures few { result ≤ 42 }
{
    number_len(u64::from(r.code)) + number_len(r.kept) + number_len(r.received)
}

/// A refusal as a content.
struct Content;

impl Written<Refused> for Content {
    ghost spelled = { refusal };

    ghost Fits = { λ r. Unit {0} };

    ghost most = { 42 };

    fn len(r: &Refused) -> usize {
        refusal_len(r)
    }

    #[tactic(auto, unfolding(crate::specs::Spelling::refusal))]
    fn put(out: &mut Row<u8>, r: &Refused) -> Result<(), NoMemory> {
        put_uint(out, CODE, u64::from(r.code))?;
        put_uint(out, KEPT, r.kept)?;
        put_uint(out, RECEIVED, r.received)
    }
}

/// Appends the one spelling of the refusal, or nothing where memory runs out.
pub fn write_refusal(r: &Refused, out: &mut Row<u8>) -> Result<(), NoMemory>
    ensures ok { OnOk result (out.new ≡ out.old ++ refusal r.now) }
    ensures err { OnErr result (out.new ≡ out.old) }
{
    write::<Refused, Content>(out, r)
}
