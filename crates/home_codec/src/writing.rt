//! The octets of a home, each production appended to a row.

ghost use Rattle.std.specs.Prelude.{◌≡◌, ◌≤◌, ◌+◌, ◌*◌, ◌-◌, ◌++◌, ◌∷◌, [], ℕ, List, take, length};
ghost use Rattle.std.specs.Prelude.{OnOk, IfOk};
ghost use Rattle.std.specs.List.{flat_map};
ghost use Rattle.small_card.specs.Lists.{Every};
ghost use Rattle.small_card.specs.Ranges.{IsResult};
ghost use Rattle.home_codec.specs.Fixed.{zeros, word, long, text, slots};
ghost use Rattle.home_codec.specs.Layout.{armed_field, head as spelled_head, profile_slot};
ghost use Rattle.home_codec.specs.Layout.{eim_slot, kept_front, result_slot};

use crate::head::Head;
use crate::layout::{
    EIM_END, EIM_SLOT, EIM_SLOTS, HEAD_END, NICKNAME, NOT_ARMED, PROFILE_END, PROFILE_SLOT,
    PROFILE_SLOTS, RESULT_SLOT, RESULT_SLOTS, TEXT, VERSION,
};
use iot_bytes::{NoMemory, Row};
use result_codec::{result_len, write_result};
use small_card::{Armed, EimEntry, PackageResult, Profile};

fn put_zeros(out: &mut Row<u8>, n: usize) -> Result<(), NoMemory>
    ensures { OnOk result (out.new ≡ out.old ++ zeros n) }
{
    for i in 0..n {
        out.append(&[0])?;
    }
    Ok(())
}

/// A number in four octets, big-endian.
#[tactic(auto, unfolding(crate::specs::Fixed::word))]
pub(crate) fn put_word(out: &mut Row<u8>, n: u32) -> Result<(), NoMemory>
    ensures { OnOk result (out.new ≡ out.old ++ word n) }
{
    out.append(&n.to_be_bytes())
}

#[tactic(auto, unfolding(crate::specs::Fixed::long))]
fn put_long(out: &mut Row<u8>, n: u64) -> Result<(), NoMemory>
    ensures { OnOk result (out.new ≡ out.old ++ long n) }
{
    out.append(&n.to_be_bytes())
}

#[tactic(auto, using(iot_bytes::proofs::Appending::appended), unfolding(crate::specs::Fixed::text))]
fn put_text(out: &mut Row<u8>, n: usize, octets: &[u8]) -> Result<(), NoMemory>
    requires fits { length octets.now ≤ n }
    requires few { n ≤ 255 }
    ensures { OnOk result (out.new ≡ out.old ++ text n octets.now) }
{
    out.append(&[octets.len() as u8])?;
    out.append(octets)?;
    put_zeros(out, n - octets.len())
}

#[tactic(auto, using(iot_bytes::proofs::Appending::appended), unfolding(crate::specs::Layout::armed_field))]
fn put_armed(out: &mut Row<u8>, armed: &Option<Armed>) -> Result<(), NoMemory>
    ensures { OnOk result (out.new ≡ out.old ++ armed_field armed.now) }
{
    match armed {
        Some(armed) => {
            out.append(&[1])?;
            out.append(armed.former.octets())?;
            put_word(out, armed.seq)
        }
        None => {
            out.append(&[0])?;
            put_zeros(out, NOT_ARMED)
        }
    }
}

#[tactic(auto, using(iot_bytes::proofs::Appending::appended), unfolding(crate::specs::Layout::head))]
fn put_head(out: &mut Row<u8>, head: &Head) -> Result<(), NoMemory>
    ensures { OnOk result (out.new ≡ out.old ++ spelled_head head.now) }
{
    out.append(&[VERSION])?;
    out.append(head.eid.octets())?;
    out.append(&[head.profiles, head.eims])?;
    put_word(out, head.association)?;
    put_word(out, head.seq)?;
    put_armed(out, &head.armed)?;
    put_zeros(out, HEAD_END)
}

#[tactic(auto, using(iot_bytes::proofs::Appending::appended), unfolding(crate::specs::Layout::profile_slot, crate::specs::Layout::state))]
fn put_profile(out: &mut Row<u8>, profile: &Profile) -> Result<(), NoMemory>
    ensures { OnOk result (out.new ≡ out.old ++ profile_slot profile.now) }
{
    out.append(profile.iccid.octets())?;
    out.append(&[profile.enabled as u8])?;
    put_text(out, NICKNAME, profile.nickname.octets())?;
    put_zeros(out, PROFILE_END)
}

#[tactic(auto, using(iot_bytes::proofs::Appending::appended), unfolding(crate::specs::Layout::eim_slot))]
fn put_eim(out: &mut Row<u8>, entry: &EimEntry) -> Result<(), NoMemory>
    ensures { OnOk result (out.new ≡ out.old ++ eim_slot entry.now) }
{
    put_text(out, TEXT, entry.id.octets())?;
    put_text(out, TEXT, entry.address.octets())?;
    put_text(out, TEXT, entry.key.octets())?;
    put_long(out, entry.counter)?;
    put_word(out, entry.association)?;
    put_zeros(out, EIM_END)
}

fn put_profiles(out: &mut Row<u8>, rows: &[Profile]) -> Result<(), NoMemory>
    ensures { OnOk result (out.new ≡ out.old ++ flat_map profile_slot rows.now) }
{
    for row in rows {
        put_profile(out, row)?;
    }
    Ok(())
}

fn put_eims(out: &mut Row<u8>, rows: &[EimEntry]) -> Result<(), NoMemory>
    ensures { OnOk result (out.new ≡ out.old ++ flat_map eim_slot rows.now) }
{
    for row in rows {
        put_eim(out, row)?;
    }
    Ok(())
}

#[tactic(auto, using(iot_bytes::proofs::Appending::appended), unfolding(crate::specs::Fixed::slots))]
fn put_slots(out: &mut Row<u8>, profiles: &[Profile], eims: &[EimEntry]) -> Result<(), NoMemory>
    requires profiles { length profiles.now ≤ 16 }
    requires eims { length eims.now ≤ 8 }
    ensures { OnOk result (out.new ≡
        out.old ++ (slots profile_slot 128 16 profiles.now ++ slots eim_slot 512 8 eims.now)) }
{
    put_profiles(out, profiles)?;
    put_zeros(out, PROFILE_SLOT * (PROFILE_SLOTS - profiles.len()))?;
    put_eims(out, eims)?;
    put_zeros(out, EIM_SLOT * (EIM_SLOTS - eims.len()))
}

/// The head, and the slots of the profiles and the eIMs.
#[tactic(auto, using(iot_bytes::proofs::Appending::appended))]
pub(crate) fn put_fields(
    out: &mut Row<u8>,
    head: &Head,
    profiles: &[Profile],
    eims: &[EimEntry],
) -> Result<(), NoMemory>
    requires profiles { length profiles.now ≤ 16 }
    requires eims { length eims.now ≤ 8 }
    ensures { OnOk result (out.new ≡ out.old ++ (spelled_head head.now ++
        (slots profile_slot 128 16 profiles.now ++ slots eim_slot 512 8 eims.now))) }
{
    put_head(out, head)?;
    put_slots(out, profiles, eims)
}

/// The length of a result, and the result.
#[tactic(auto, using(iot_bytes::proofs::Appending::appended), unfolding(crate::specs::Layout::kept_front))]
pub(crate) fn put_kept(out: &mut Row<u8>, kept: &PackageResult) -> Result<(), NoMemory>
    requires { IsResult kept.now }
    ensures { OnOk result (out.new ≡ out.old ++ kept_front kept.now) }
{
    put_word(out, result_len(kept) as u32)?;
    write_result(kept, out)
}

#[tactic(auto, using(iot_bytes::proofs::Appending::appended), unfolding(crate::specs::Layout::result_slot))]
fn put_result(out: &mut Row<u8>, kept: &PackageResult) -> Result<(), NoMemory>
    requires { IsResult kept.now }
    ensures { OnOk result (out.new ≡ out.old ++ result_slot kept.now) }
{
    put_kept(out, kept)?;
    put_zeros(out, RESULT_SLOT - 4 - result_len(kept))
}

fn put_results(out: &mut Row<u8>, rows: &[PackageResult]) -> Result<(), NoMemory>
    requires { Every IsResult rows.now }
    ensures { OnOk result (out.new ≡ out.old ++ flat_map result_slot rows.now) }
{
    for row in rows {
        put_result(out, row)?;
    }
    Ok(())
}

/// The slots of the pending results, each in the slot of its place in the list.
#[tactic(auto, using(iot_bytes::proofs::Appending::appended), unfolding(crate::specs::Fixed::slots))]
pub(crate) fn put_pending(out: &mut Row<u8>, pending: &[PackageResult]) -> Result<(), NoMemory>
    requires few { length pending.now ≤ 8 }
    requires each { Every IsResult pending.now }
    ensures { OnOk result (out.new ≡ out.old ++ slots result_slot 20736 8 pending.now) }
{
    put_results(out, pending)?;
    put_zeros(out, RESULT_SLOT * (RESULT_SLOTS - pending.len()))
}
