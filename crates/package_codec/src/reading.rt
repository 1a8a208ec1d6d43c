ghost use Rattle.std.specs.Prelude.{◌≡◌, Some, IfOk, IsErrOf};
ghost use Rattle.sgp_der.specs.Fields.{Gives};
ghost use Rattle.sgp_fields.specs.Laws.{SpellsNone};
ghost use Rattle.small_card.specs.Ranges.{IsBody, IsSigned};
ghost use Rattle.small_card.specs.declared.types.Body.{Body};
ghost use Rattle.small_card.specs.declared.types.Signed.{Signed};
ghost use Rattle.package_codec.specs.Reading.{body_at, package_of, signed_of, signed_at};
ghost use Rattle.package_codec.specs.Spelling.{body, signed};

use crate::body;
use crate::tags::{inner, outer};
use iot_bytes::{ReadError, Row};
use sgp_fields::Fields;
use sgp_values::{Eid, EimId};
use small_card::limits::{GREATEST_ASSOCIATION, GREATEST_COUNTER};
use small_card::{Body, Package, Signed};
use std::alloc::Global;

/// The most octets of a signature.
const MOST_SIGNATURE: usize = 128;

#[tactic(auto, unfolding(crate::specs::Reading::package_of))]
fn package(alloc: Global, content: &[u8]) -> Result<Package, ReadError>
    ensures { Gives result (package_of content.now) }
{
    let mut fields = Fields::of(content);
    let eim = fields.value::<EimId>(inner::EIM_ID)?;
    let eid = fields.value::<Eid>(inner::EID)?;
    let association = fields.number(inner::ASSOCIATION, 1, u64::from(GREATEST_ASSOCIATION))?;
    let counter = fields.number(inner::COUNTER, 1, GREATEST_COUNTER)?;
    let body = body::body(alloc, fields.rest())?;
    Ok(Package {
        eim,
        eid,
        association: association as u32,
        counter,
        body,
    })
}

#[tactic(auto, unfolding(crate::specs::Reading::signed_of))]
fn signed_fields(alloc: Global, content: &[u8]) -> Result<Signed, ReadError>
    ensures { Gives result (signed_of content.now) }
{
    let mut fields = Fields::of(content);
    let inside = fields.content(outer::PACKAGE)?;
    let package = package(alloc, inside)?;
    let octets = fields.last_content(outer::SIGNATURE)?;
    if octets.len() > MOST_SIGNATURE {
        return Err(ReadError::Malformed);
    }
    let mut signature = Row::new(alloc);
    signature.append(octets)?;
    Ok(Signed { package, signature })
}

#[tactic(auto, unfolding(crate::specs::Reading::signed_at, sgp_fields::specs::Fields::last_at))]
fn whole(alloc: Global, bytes: &[u8]) -> Result<Signed, ReadError>
    ensures { Gives result (signed_at bytes.now) }
{
    let content = Fields::of(bytes).last_content(outer::WHOLE)?;
    signed_fields(alloc, content)
}

/// The signed package that the octets spell (SGP.32, eUICC Package). The signature isn't read.
pub fn read_signed(alloc: Global, bytes: &[u8]) -> Result<Signed, ReadError>
    // What is read is spelled so.
    ensures found { IfOk result (λ s. IsSigned s × (bytes.now ≡ signed s)) }
    // What is spelled so is read, unless memory runs out.
    ensures only { (s : Signed) → IsSigned s → bytes.now ≡ signed s → Gives result (Some s) }
    // Malformed comes only where nothing is spelled so.
    ensures malformed { IsErrOf result ReadError.Malformed → SpellsNone signed IsSigned bytes.now }
    // The reading word, for callers that compose it.
    ensures exact { Gives result (signed_at bytes.now) }
{
    whole(alloc, bytes)
}

/// The operations of a package that the octets spell, as one whole element.
pub fn read_body(alloc: Global, bytes: &[u8]) -> Result<Body, ReadError>
    // What is read is spelled so.
    ensures found { IfOk result (λ b. IsBody b × (bytes.now ≡ body b)) }
    // What is spelled so is read, unless memory runs out.
    ensures only { (b : Body) → IsBody b → bytes.now ≡ body b → Gives result (Some b) }
    // Malformed comes only where nothing is spelled so.
    ensures malformed { IsErrOf result ReadError.Malformed → SpellsNone body IsBody bytes.now }
    // The reading word, for callers that compose it.
    ensures exact { Gives result (body_at bytes.now) }
{
    body::body(alloc, bytes)
}
