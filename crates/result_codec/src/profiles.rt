//! The table of profiles: a list of records, of which not every two may stand together.

ghost use Rattle.std.specs.Prelude.{◌≡◌, ◌≤◌, ◌+◌, ◌*◌, ◌++◌, List, Some, take, length};
ghost use Rattle.std.specs.Prelude.{OnOk, OnErr, IfOk, IsErrOf};
ghost use Rattle.sgp_der.specs.Fields.{Gives};
ghost use Rattle.sgp_fields.specs.Laws.{SpellsNone};
ghost use Rattle.small_card.specs.Ranges.{IsTable};
ghost use Rattle.small_card.specs.declared.types.Profile.{Profile};
ghost use Rattle.result_codec.specs.Reading.{profile_fields, profiles_at};
ghost use Rattle.result_codec.specs.Spelling.{profile_content, profiles};

use crate::tags::profile::{ENABLED, ICCID, NICKNAME, PROFILE};
use iot_bytes::{NoMemory, ReadError, Row};
use sgp_der::{put_head, put_octets};
use sgp_fields::{
    Fields, Listed, Written, element_len, field_len, flag_len, list, list_len, put_flag, write_list,
};
use sgp_values::{Iccid, Nickname};
use small_card::limits::MOST_PROFILES;
use small_card::{Profile, are_all_apart};
use std::alloc::Global;

#[tactic(auto, unfolding(crate::specs::Reading::profile_fields))]
fn profile_from(content: &[u8]) -> Result<Profile, ReadError>
    ensures { Gives result (profile_fields content.now) }
{
    let mut fields = Fields::of(content);
    let iccid = fields.value::<Iccid>(ICCID)?;
    let enabled = fields.value::<bool>(ENABLED)?;
    let nickname = fields.last::<Nickname>(NICKNAME)?;
    Ok(Profile {
        iccid,
        enabled,
        nickname,
    })
}

#[tactic(auto, unfolding(crate::specs::Spelling::profile_content), using(sgp_fields::proofs::Appending::length_both))]
fn content_len(p: &Profile) -> usize
    ensures len { result ≡ length (profile_content p.now) }
    ensures few { result ≤ 98 }
{
    field_len(p.iccid.octets()) + flag_len(p.enabled) + field_len(p.nickname.octets())
}

/// A profile as one element.
struct Entry;

impl Listed<Profile> for Entry {
    ghost use Rattle.result_codec.specs.Reading.{profile_of};

    ghost entry_of = { profile_of };

    fn read(_alloc: Global, tag: u8, content: &[u8]) -> Result<Profile, ReadError> {
        match tag {
            PROFILE => profile_from(content),
            _ => Err(ReadError::Malformed),
        }
    }
}

impl Written<Profile> for Entry {
    ghost use Rattle.small_card.specs.Ranges.{IsProfile};
    ghost use Rattle.result_codec.specs.Spelling.{profile};

    ghost spelled = { profile };

    ghost Fits = { IsProfile };

    ghost most = { 83 };

    #[tactic(auto, unfolding(crate::specs::Spelling::profile))]
    fn len(p: &Profile) -> usize {
        element_len(content_len(p))
    }

    #[tactic(auto, unfolding(crate::specs::Spelling::profile, crate::specs::Spelling::profile_content), using(sgp_fields::proofs::Appending::appended))]
    fn put(out: &mut Row<u8>, p: &Profile) -> Result<(), NoMemory> {
        put_head(out, PROFILE, content_len(p))?;
        put_octets(out, ICCID, p.iccid.octets())?;
        put_flag(out, ENABLED, p.enabled)?;
        put_octets(out, NICKNAME, p.nickname.octets())
    }
}

#[tactic(auto, unfolding(crate::specs::Reading::profiles_at))]
fn table(alloc: Global, content: &[u8]) -> Result<Row<Profile>, ReadError>
    ensures { Gives result (profiles_at content.now) }
{
    let rows = list::<Profile, Entry>(alloc, content, MOST_PROFILES)?;
    if are_all_apart(rows.as_slice()) {
        Ok(rows)
    } else {
        Err(ReadError::Malformed)
    }
}

/// The profiles that the octets spell, one element behind the other: at most 16, with distinct
/// ICCIDs and at most one enabled.
///
/// # Errors
/// `Malformed` where the octets are no such list.
pub fn read_profiles(alloc: Global, content: &[u8]) -> Result<Row<Profile>, ReadError>
    // What is read is spelled so.
    ensures found { IfOk result (λ ps. IsTable ps × (content.now ≡ profiles ps)) }
    // What is spelled so is read, unless memory runs out.
    ensures only { (ps : List Profile) → IsTable ps → content.now ≡ profiles ps
        → Gives result (Some ps) }
    // Malformed comes only where nothing is spelled so.
    ensures malformed { IsErrOf result ReadError.Malformed
        → SpellsNone profiles IsTable content.now }
    // The reading word, for callers that compose it.
    ensures exact { Gives result (profiles_at content.now) }
{
    table(alloc, content)
}

/// How many octets [`write_profiles`] appends. It takes no memory.
pub fn profiles_len(rows: &[Profile]) -> usize
    requires { IsTable rows.now }
    ensures len { result ≡ length (profiles rows.now) }
    ensures few { result ≤ 1328 }
{
    list_len::<Profile, Entry>(rows)
}

/// Appends the profiles, one element behind the other, or nothing where memory runs out.
pub fn write_profiles(rows: &[Profile], out: &mut Row<u8>) -> Result<(), NoMemory>
    requires { IsTable rows.now }
    ensures ok { OnOk result (out.new ≡ out.old ++ profiles rows.now) }
    ensures err { OnErr result (out.new ≡ out.old) }
{
    write_list::<Profile, Entry>(out, rows)
}
