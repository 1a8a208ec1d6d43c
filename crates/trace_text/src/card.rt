ghost use Rattle.std.specs.Prelude.{◌≡◌, ◌++◌, length, take, OnOk, OnErr};
ghost use Rattle.std.specs.List.{flat_map};
ghost use Rattle.trace_text.specs.Texts.{sign_text, profile_entry, package_text, eim_entry};
ghost use Rattle.trace_text.specs.Texts.{pending_entry, profiles_text, eims_text, pending_text};
ghost use Rattle.trace_text.specs.Texts.{card_text};

use crate::parts::{put_mark, put_number, put_text};
use iot_bytes::{NoMemory, Row, put_hex};
use sgp_values::EimId;
use small_card::{EimEntry, PackageResult, Profile};

fn put_sign(out: &mut Row<u8>, enabled: bool) -> Result<(), NoMemory>
    ensures ok { OnOk result (out.new ≡ out.old ++ sign_text enabled) }
    ensures err { OnErr result (take (length out.old) out.new ≡ out.old) }
{
    out.append(if enabled { b" +" } else { b" -" })
}

#[tactic(auto, using(iot_bytes::proofs::Appending::appended), unfolding(crate::specs::Texts::profile_entry))]
fn put_profile(out: &mut Row<u8>, profile: &Profile) -> Result<(), NoMemory>
    ensures ok { OnOk result (out.new ≡ out.old ++ profile_entry profile.now) }
    ensures err { OnErr result (take (length out.old) out.new ≡ out.old) }
{
    put_sign(out, profile.enabled)?;
    put_hex(out, profile.iccid.octets())
}

fn put_profiles(out: &mut Row<u8>, profiles: &[Profile]) -> Result<(), NoMemory>
    ensures ok { OnOk result (out.new ≡ out.old ++ flat_map profile_entry profiles.now) }
    ensures err { OnErr result (take (length out.old) out.new ≡ out.old) }
{
    for profile in profiles {
        put_profile(out, profile)?;
    }
    Ok(())
}

// A label, and what names a package behind it.
#[tactic(auto, using(iot_bytes::proofs::Appending::appended), unfolding(crate::specs::Texts::package_text))]
fn put_package(
    out: &mut Row<u8>,
    label: &[u8],
    id: &EimId,
    association: u32,
    counter: u64,
) -> Result<(), NoMemory>
    ensures ok { OnOk result (out.new ≡ out.old
        ++ (label.now ++ package_text id.now association counter)) }
    ensures err { OnErr result (take (length out.old) out.new ≡ out.old) }
{
    put_text(out, label, id.octets())?;
    put_number(out, b"/", u64::from(association))?;
    put_number(out, b"/", counter)
}

#[tactic(auto, using(iot_bytes::proofs::Appending::appended), unfolding(crate::specs::Texts::eim_entry))]
fn put_eim(out: &mut Row<u8>, eim: &EimEntry) -> Result<(), NoMemory>
    ensures ok { OnOk result (out.new ≡ out.old ++ eim_entry eim.now) }
    ensures err { OnErr result (take (length out.old) out.new ≡ out.old) }
{
    put_package(out, b" ", &eim.id, eim.association, eim.counter)
}

fn put_eims(out: &mut Row<u8>, eims: &[EimEntry]) -> Result<(), NoMemory>
    ensures ok { OnOk result (out.new ≡ out.old ++ flat_map eim_entry eims.now) }
    ensures err { OnErr result (take (length out.old) out.new ≡ out.old) }
{
    for eim in eims {
        put_eim(out, eim)?;
    }
    Ok(())
}

#[tactic(auto, using(iot_bytes::proofs::Appending::appended), unfolding(crate::specs::Texts::pending_entry))]
fn put_pending(out: &mut Row<u8>, pending: &PackageResult) -> Result<(), NoMemory>
    ensures ok { OnOk result (out.new ≡ out.old ++ pending_entry pending.now) }
    ensures err { OnErr result (take (length out.old) out.new ≡ out.old) }
{
    put_number(out, b" ", u64::from(pending.seq))?;
    let (association, counter) = (pending.association, pending.counter);
    put_package(out, b"/", &pending.eim, association, counter)?;
    put_mark(out, pending.rolled)
}

fn put_all_pending(out: &mut Row<u8>, pending: &[PackageResult]) -> Result<(), NoMemory>
    ensures ok { OnOk result (out.new ≡ out.old ++ flat_map pending_entry pending.now) }
    ensures err { OnErr result (take (length out.old) out.new ≡ out.old) }
{
    for one in pending {
        put_pending(out, one)?;
    }
    Ok(())
}

#[tactic(auto, using(iot_bytes::proofs::Appending::appended), unfolding(crate::specs::Texts::profiles_text))]
fn put_profile_part(out: &mut Row<u8>, profiles: &[Profile]) -> Result<(), NoMemory>
    ensures ok { OnOk result (out.new ≡ out.old ++ profiles_text profiles.now) }
    ensures err { OnErr result (take (length out.old) out.new ≡ out.old) }
{
    out.append(b"profiles")?;
    put_profiles(out, profiles)
}

#[tactic(auto, using(iot_bytes::proofs::Appending::appended), unfolding(crate::specs::Texts::eims_text))]
fn put_eim_part(out: &mut Row<u8>, eims: &[EimEntry]) -> Result<(), NoMemory>
    ensures ok { OnOk result (out.new ≡ out.old ++ eims_text eims.now) }
    ensures err { OnErr result (take (length out.old) out.new ≡ out.old) }
{
    out.append(b" eims")?;
    put_eims(out, eims)
}

#[tactic(auto, using(iot_bytes::proofs::Appending::appended), unfolding(crate::specs::Texts::pending_text))]
fn put_pending_part(out: &mut Row<u8>, pending: &[PackageResult]) -> Result<(), NoMemory>
    ensures ok { OnOk result (out.new ≡ out.old ++ pending_text pending.now) }
    ensures err { OnErr result (take (length out.old) out.new ≡ out.old) }
{
    out.append(b" pending")?;
    put_all_pending(out, pending)
}

#[tactic(auto, using(iot_bytes::proofs::Appending::appended), unfolding(crate::specs::Texts::card_text))]
fn put_parts(
    out: &mut Row<u8>,
    profiles: &[Profile],
    eims: &[EimEntry],
    pending: &[PackageResult],
) -> Result<(), NoMemory>
    ensures ok { OnOk result (out.new ≡ out.old ++ card_text profiles.now eims.now pending.now) }
    ensures err { OnErr result (take (length out.old) out.new ≡ out.old) }
{
    put_profile_part(out, profiles)?;
    put_eim_part(out, eims)?;
    put_pending_part(out, pending)
}

/// Appends the card on one line, or nothing where memory ran out.
pub fn put_card(
    out: &mut Row<u8>,
    profiles: &[Profile],
    eims: &[EimEntry],
    pending: &[PackageResult],
) -> Result<(), NoMemory>
    ensures ok { OnOk result (out.new ≡ out.old ++ card_text profiles.now eims.now pending.now) }
    ensures err { OnErr result (out.new ≡ out.old) }
{
    let before = out.len();
    if put_parts(out, profiles, eims, pending).is_err() {
        out.cut(before);
        return Err(NoMemory);
    }
    Ok(())
}
