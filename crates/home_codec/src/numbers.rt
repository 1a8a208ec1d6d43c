//! The sequence number of the result in a slot, without reading the result.

ghost use Rattle.std.specs.Prelude.{◌≡◌, ◌≤◌, ◌++◌, ℕ, List, Option, None, Some, IfSome};
ghost use Rattle.std.specs.Prelude.{MatchResult, length, option_map};
ghost use Rattle.small_card.specs.Ranges.{IsResult};
ghost use Rattle.small_card.specs.declared.types.PackageResult.{PackageResult};
ghost use Rattle.home_codec.specs.Homes.{Begins};
ghost use Rattle.home_codec.specs.Layout.{slot_front};
ghost use Rattle.home_codec.specs.Numbers.{seq_at, number_at};

use crate::fixed::FixedFields;
use iot_bytes::ReadError;
use sgp_fields::Fields;
use small_card::limits::GREATEST_SEQ;

/// The tag of a result's sequence number, its first field.
const SEQ: u8 = 0x80;

/// The first octet of a length with further octets, less how many follow.
const LONG_LENGTH: u8 = 0x80;

// The number in the first field, behind the tag and the length of a result.
#[tactic(auto, unfolding(crate::specs::Numbers::seq_at))]
fn seq<'a>(octets: FixedFields<'a>) -> Result<u32, ReadError>
    ensures { MatchResult result (λ n. seq_at octets.entry ≡ Some n)
        (λ _. seq_at octets.entry ≡ None) }
{
    let mut octets = octets;
    octets.octet()?;
    let first = octets.octet()?;
    octets.octets(usize::from(first.saturating_sub(LONG_LENGTH)))?;
    let mut fields = Fields::of(octets.rest());
    let seq = fields.number(SEQ, 1, u64::from(GREATEST_SEQ))?;
    Ok(seq as u32)
}

#[tactic(auto, unfolding(crate::specs::Numbers::number_at))]
fn number(front: &[u8]) -> Option<u32>
    ensures { result ≡ number_at front.now }
{
    let mut octets = FixedFields::of(front);
    let len = octets.word().ok()?;
    if len == 0 {
        return None;
    }
    seq(octets).ok()
}

/// The sequence number of the result in the slot that begins so, or none where the slot is free. It
/// looks at the first octets alone, of which a block has enough.
pub fn slot_number(front: &[u8]) -> Option<u32>
    requires { 32 ≤ length front.now }
    ensures { (place : Option PackageResult) (behind : List ℕ)
        → IfSome place IsResult → Begins (slot_front place) (front.now ++ behind)
        → result ≡ option_map (λ r. r.seq) place }
{
    number(front)
}
