//! Writing lines. A public call leaves what was there where memory runs out.

ghost use Rattle.std.specs.Prelude.{◌≡◌, ◌++◌, [], ◌∷◌, length, take, map, codes, OnOk, OnErr};
ghost use Rattle.std.specs.List.{flat_map};
ghost use Rattle.std.specs.Fmt.{decimal};
ghost use Rattle.iot_schedule.specs.Words.{joined, spaced};
ghost use Rattle.iot_schedule.specs.Spelling.{address_text, key_text, pick_text, bytes_text};
ghost use Rattle.iot_schedule.specs.Spelling.{tear_text, verdict_words, good_text, probe_text};
ghost use Rattle.iot_schedule.specs.Spelling.{profile_text, profile_entry, device_text, step_text};
ghost use Rattle.iot_schedule.specs.Spelling.{body_words};

use crate::operation_writing::put_body;
use crate::token_writing::{
    put_address, put_bytes, put_eid, put_key, put_number, put_pick, put_profile, put_tear, put_word,
};
use crate::types::{Device, Line, Pick};
use chip_port::Tear;
use iot_bytes::{NoMemory, Row};
use sgp_values::{Address, EimId, Key};
use small_card::{Body, Profile};

// A keyword and an identifier behind it.
#[tactic(auto, using(crate::proofs::Appending::appended))]
fn put_front(out: &mut Row<u8>, keyword: &[u8], id: &EimId) -> Result<(), NoMemory>
    ensures ok { OnOk result (out.new ≡ out.old ++ (keyword.now ++ spaced id.now)) }
    ensures err { OnErr result (take (length out.old) out.new ≡ out.old) }
{
    out.append(keyword)?;
    put_word(out, id.octets())
}

// A line of a keyword and an identifier.
#[tactic(auto, using(crate::proofs::Appending::appended))]
fn put_named(out: &mut Row<u8>, keyword: &[u8], id: &EimId) -> Result<(), NoMemory>
    ensures ok { OnOk result (out.new ≡ out.old ++ joined (keyword.now ∷ id.now ∷ [])) }
    ensures err { OnErr result (take (length out.old) out.new ≡ out.old) }
{
    put_front(out, keyword, id)
}

#[tactic(auto, using(crate::proofs::Appending::appended))]
fn put_initial(out: &mut Row<u8>, id: &EimId, address: &Address, key: &Key) -> Result<(), NoMemory>
    ensures ok { OnOk result (out.new ≡ out.old
        ++ joined (codes "initial" ∷ id.now ∷ address_text address.now ∷ key_text key.now ∷ [])) }
    ensures err { OnErr result (take (length out.old) out.new ≡ out.old) }
{
    put_front(out, b"initial", id)?;
    put_address(out, address)?;
    put_key(out, key)
}

#[tactic(auto, using(crate::proofs::Appending::appended))]
fn put_bind(out: &mut Row<u8>, id: &EimId, association: u32, last: u64) -> Result<(), NoMemory>
    ensures ok { OnOk result (out.new ≡ out.old
        ++ joined (codes "bind" ∷ id.now ∷ decimal association ∷ decimal last ∷ [])) }
    ensures err { OnErr result (take (length out.old) out.new ≡ out.old) }
{
    put_front(out, b"bind", id)?;
    put_number(out, u64::from(association))?;
    put_number(out, last)
}

#[tactic(auto, using(crate::proofs::Appending::appended))]
fn put_order(out: &mut Row<u8>, id: &EimId, body: &Body) -> Result<(), NoMemory>
    ensures ok { OnOk result (out.new ≡ out.old
        ++ joined (codes "order" ∷ id.now ∷ body_words body.now)) }
    ensures err { OnErr result (take (length out.old) out.new ≡ out.old) }
{
    put_front(out, b"order", id)?;
    put_body(out, body)
}

#[tactic(auto, using(crate::proofs::Appending::appended))]
fn put_up(out: &mut Row<u8>, pick: &Pick) -> Result<(), NoMemory>
    ensures ok { OnOk result (out.new ≡ out.old ++ joined (codes "up" ∷ pick_text pick.now ∷ [])) }
    ensures err { OnErr result (take (length out.old) out.new ≡ out.old) }
{
    out.append(b"up")?;
    put_pick(out, pick)
}

#[tactic(auto, using(crate::proofs::Appending::appended))]
fn put_verdict(out: &mut Row<u8>, good: bool) -> Result<(), NoMemory>
    ensures ok { OnOk result (out.new ≡ out.old ++ flat_map spaced (verdict_words good)) }
    ensures err { OnErr result (take (length out.old) out.new ≡ out.old) }
{
    if good { Ok(()) } else { put_word(out, b"bad") }
}

#[tactic(auto, using(crate::proofs::Appending::appended))]
fn put_down(out: &mut Row<u8>, pick: &Pick, good: bool) -> Result<(), NoMemory>
    ensures ok { OnOk result (out.new ≡ out.old
        ++ joined (codes "down" ∷ pick_text pick.now ∷ verdict_words good)) }
    ensures err { OnErr result (take (length out.old) out.new ≡ out.old) }
{
    out.append(b"down")?;
    put_pick(out, pick)?;
    put_verdict(out, good)
}

#[tactic(auto, using(crate::proofs::Appending::appended))]
fn put_load(out: &mut Row<u8>, good: bool, bytes: &[u8]) -> Result<(), NoMemory>
    ensures ok { OnOk result (out.new ≡ out.old
        ++ joined (codes "load" ∷ good_text good ∷ bytes_text bytes.now ∷ [])) }
    ensures err { OnErr result (take (length out.old) out.new ≡ out.old) }
{
    out.append(b"load")?;
    put_word(out, if good { b"good" } else { b"bad" })?;
    put_bytes(out, bytes)
}

#[tactic(auto, using(crate::proofs::Appending::appended))]
fn put_probe(out: &mut Row<u8>, passed: bool) -> Result<(), NoMemory>
    ensures ok { OnOk result (out.new ≡ out.old
        ++ joined (codes "probe" ∷ probe_text passed ∷ [])) }
    ensures err { OnErr result (take (length out.old) out.new ≡ out.old) }
{
    out.append(b"probe")?;
    put_word(out, if passed { b"ok" } else { b"fail" })
}

#[tactic(auto, using(crate::proofs::Appending::appended))]
fn put_cut(out: &mut Row<u8>, calls: u32, tear: Tear) -> Result<(), NoMemory>
    ensures ok { OnOk result (out.new ≡ out.old
        ++ joined (codes "cut" ∷ decimal calls ∷ tear_text tear ∷ [])) }
    ensures err { OnErr result (take (length out.old) out.new ≡ out.old) }
{
    out.append(b"cut")?;
    put_number(out, u64::from(calls))?;
    put_tear(out, tear)
}

#[tactic(auto, using(crate::proofs::Appending::appended))]
fn put_detach(out: &mut Row<u8>, at: u32) -> Result<(), NoMemory>
    ensures ok { OnOk result (out.new ≡ out.old ++ joined (codes "detach" ∷ decimal at ∷ [])) }
    ensures err { OnErr result (take (length out.old) out.new ≡ out.old) }
{
    out.append(b"detach")?;
    put_number(out, u64::from(at))
}

// A line that is its keyword alone.
#[tactic(auto, using(crate::proofs::Appending::appended))]
fn put_bare(out: &mut Row<u8>, keyword: &[u8]) -> Result<(), NoMemory>
    ensures ok { OnOk result (out.new ≡ out.old ++ joined (keyword.now ∷ [])) }
    ensures err { OnErr result (take (length out.old) out.new ≡ out.old) }
{
    out.append(keyword)
}

#[tactic(auto, unfolding(crate::specs::Spelling::step_words, crate::specs::Spelling::step_text))]
fn put_step(out: &mut Row<u8>, line: &Line) -> Result<(), NoMemory>
    ensures ok { OnOk result (out.new ≡ out.old ++ step_text line.now) }
    ensures err { OnErr result (take (length out.old) out.new ≡ out.old) }
{
    match line {
        Line::Eim { id } => put_named(out, b"eim", id),
        Line::Initial { id, address, key } => put_initial(out, id, address, key),
        Line::Bind {
            id,
            association,
            last,
        } => put_bind(out, id, *association, *last),
        Line::Order { id, body } => put_order(out, id, body),
        Line::Skip { id } => put_named(out, b"skip", id),
        Line::Poll { id } => put_named(out, b"poll", id),
        Line::Up { pick } => put_up(out, pick),
        Line::Down { pick, good } => put_down(out, pick, *good),
        Line::Load { good, bytes } => put_load(out, *good, bytes.as_slice()),
        Line::Push => put_bare(out, b"push"),
        Line::Probe { passed } => put_probe(out, *passed),
        Line::Rollback => put_bare(out, b"rollback"),
        Line::Restart => put_bare(out, b"restart"),
        Line::Cut { calls, tear } => put_cut(out, *calls, *tear),
        Line::Boot => put_bare(out, b"boot"),
        Line::Show => put_bare(out, b"show"),
        Line::Kept { id } => put_named(out, b"kept", id),
        Line::Detach { at } => put_detach(out, *at),
        Line::Modems => put_bare(out, b"modems"),
    }
}

/// Appends a line behind the first one, without its end, or nothing where memory ran out.
pub fn write_step(line: &Line, out: &mut Row<u8>) -> Result<(), NoMemory>
    ensures ok { OnOk result (out.new ≡ out.old ++ step_text line.now) }
    ensures err { OnErr result (out.new ≡ out.old) }
{
    let before = out.len();
    if put_step(out, line).is_err() {
        out.cut(before);
        return Err(NoMemory);
    }
    Ok(())
}

fn put_profiles(out: &mut Row<u8>, profiles: &[Profile]) -> Result<(), NoMemory>
    ensures ok { OnOk result (out.new ≡ out.old ++ flat_map profile_entry profiles.now) }
    ensures err { OnErr result (take (length out.old) out.new ≡ out.old) }
{
    for profile in profiles {
        put_profile(out, profile)?;
    }
    Ok(())
}

#[tactic(auto, using(crate::proofs::Appending::profiles_spaced))]
fn put_profile_words(out: &mut Row<u8>, profiles: &[Profile]) -> Result<(), NoMemory>
    ensures ok { OnOk result (out.new ≡ out.old
        ++ flat_map spaced (map profile_text profiles.now)) }
    ensures err { OnErr result (take (length out.old) out.new ≡ out.old) }
{
    put_profiles(out, profiles)
}

#[tactic(auto, using(crate::proofs::Appending::appended), unfolding(crate::specs::Spelling::device_words, crate::specs::Spelling::device_text))]
fn put_device(out: &mut Row<u8>, device: &Device) -> Result<(), NoMemory>
    ensures ok { OnOk result (out.new ≡ out.old ++ device_text device.now) }
    ensures err { OnErr result (take (length out.old) out.new ≡ out.old) }
{
    out.append(b"device")?;
    put_eid(out, &device.eid)?;
    put_profile_words(out, device.profiles.as_slice())
}

/// Appends a first line, without its end, or nothing where memory ran out.
pub fn write_device(device: &Device, out: &mut Row<u8>) -> Result<(), NoMemory>
    ensures ok { OnOk result (out.new ≡ out.old ++ device_text device.now) }
    ensures err { OnErr result (out.new ≡ out.old) }
{
    let before = out.len();
    if put_device(out, device).is_err() {
        out.cut(before);
        return Err(NoMemory);
    }
    Ok(())
}
