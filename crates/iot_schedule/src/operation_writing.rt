//! Writing the operations of an order. Where memory runs out, a front of what is written may be
//! left behind what was there before.

ghost use Rattle.std.specs.Prelude.{◌≡◌, ◌++◌, length, take, OnOk, OnErr};
ghost use Rattle.std.specs.List.{flat_map};
ghost use Rattle.small_card.specs.declared.types.Eco.{Eco};
ghost use Rattle.iot_schedule.specs.Words.{spaced};
ghost use Rattle.iot_schedule.specs.Spelling.{address_text, key_text, optional_text, enable_text};
ghost use Rattle.iot_schedule.specs.Spelling.{psmo_text, eco_text, psmo_entry, eco_entry};
ghost use Rattle.iot_schedule.specs.Spelling.{body_words};

use crate::token_writing::put_digits;
use iot_bytes::{NoMemory, Row};
use sgp_values::{Address, EimId, Key};
use small_card::{Body, Eco, Psmo};
use trace_text::put_text;

fn enable_name(rollback: bool) -> &'static [u8]
    ensures { result.now ≡ enable_text rollback }
{
    if rollback { b"enable!:" } else { b"enable:" }
}

#[tactic(auto, unfolding(crate::specs::Spelling::psmo_text))]
fn put_psmo(out: &mut Row<u8>, op: &Psmo) -> Result<(), NoMemory>
    ensures ok { OnOk result (out.new ≡ out.old ++ psmo_text op.now) }
    ensures err { OnErr result (take (length out.old) out.new ≡ out.old) }
{
    match op {
        Psmo::Enable { iccid, rollback } => {
            put_digits(out, enable_name(*rollback), iccid.octets())
        }
        Psmo::Disable { iccid } => put_digits(out, b"disable:", iccid.octets()),
        Psmo::Delete { iccid } => put_digits(out, b"delete:", iccid.octets()),
        Psmo::List => out.append(b"list"),
    }
}

#[tactic(auto, using(crate::proofs::Appending::appended), unfolding(crate::specs::Spelling::eco_text))]
fn put_add(out: &mut Row<u8>, id: &EimId, address: &Address, key: &Key) -> Result<(), NoMemory>
    ensures ok { OnOk result (out.new ≡ out.old ++ eco_text (Eco.Add id.now address.now key.now)) }
    ensures err { OnErr result (take (length out.old) out.new ≡ out.old) }
{
    put_text(out, b"add:", id.octets())?;
    put_text(out, b"@", address.octets())?;
    put_digits(out, b"#", key.octets())
}

fn put_optional_address(out: &mut Row<u8>, address: &Option<Address>) -> Result<(), NoMemory>
    ensures ok { OnOk result (out.new ≡ out.old ++ optional_text address_text address.now) }
    ensures err { OnErr result (take (length out.old) out.new ≡ out.old) }
{
    match address {
        Some(address) => put_text(out, b"@", address.octets()),
        None => Ok(()),
    }
}

fn put_optional_key(out: &mut Row<u8>, key: &Option<Key>) -> Result<(), NoMemory>
    ensures ok { OnOk result (out.new ≡ out.old ++ optional_text key_text key.now) }
    ensures err { OnErr result (take (length out.old) out.new ≡ out.old) }
{
    match key {
        Some(key) => put_digits(out, b"#", key.octets()),
        None => Ok(()),
    }
}

#[tactic(auto, using(crate::proofs::Appending::appended), unfolding(crate::specs::Spelling::eco_text))]
fn put_update(
    out: &mut Row<u8>,
    id: &EimId,
    address: &Option<Address>,
    key: &Option<Key>,
) -> Result<(), NoMemory>
    ensures ok { OnOk result (out.new ≡ out.old
        ++ eco_text (Eco.Update id.now address.now key.now)) }
    ensures err { OnErr result (take (length out.old) out.new ≡ out.old) }
{
    put_text(out, b"update:", id.octets())?;
    put_optional_address(out, address)?;
    put_optional_key(out, key)
}

#[tactic(auto, unfolding(crate::specs::Spelling::eco_text))]
fn put_eco(out: &mut Row<u8>, op: &Eco) -> Result<(), NoMemory>
    ensures ok { OnOk result (out.new ≡ out.old ++ eco_text op.now) }
    ensures err { OnErr result (take (length out.old) out.new ≡ out.old) }
{
    match op {
        Eco::Add { id, address, key } => put_add(out, id, address, key),
        Eco::Update { id, address, key } => put_update(out, id, address, key),
        Eco::Delete { id } => put_text(out, b"drop:", id.octets()),
        Eco::List => out.append(b"eims"),
    }
}

#[tactic(auto, using(crate::proofs::Appending::appended), unfolding(crate::specs::Words::spaced, crate::specs::Spelling::psmo_entry))]
fn put_psmo_word(out: &mut Row<u8>, op: &Psmo) -> Result<(), NoMemory>
    ensures ok { OnOk result (out.new ≡ out.old ++ psmo_entry op.now) }
    ensures err { OnErr result (take (length out.old) out.new ≡ out.old) }
{
    out.append(b" ")?;
    put_psmo(out, op)
}

fn put_psmos(out: &mut Row<u8>, ops: &[Psmo]) -> Result<(), NoMemory>
    ensures ok { OnOk result (out.new ≡ out.old ++ flat_map psmo_entry ops.now) }
    ensures err { OnErr result (take (length out.old) out.new ≡ out.old) }
{
    for op in ops {
        put_psmo_word(out, op)?;
    }
    Ok(())
}

#[tactic(auto, using(crate::proofs::Appending::appended), unfolding(crate::specs::Words::spaced, crate::specs::Spelling::eco_entry))]
fn put_eco_word(out: &mut Row<u8>, op: &Eco) -> Result<(), NoMemory>
    ensures ok { OnOk result (out.new ≡ out.old ++ eco_entry op.now) }
    ensures err { OnErr result (take (length out.old) out.new ≡ out.old) }
{
    out.append(b" ")?;
    put_eco(out, op)
}

fn put_ecos(out: &mut Row<u8>, ops: &[Eco]) -> Result<(), NoMemory>
    ensures ok { OnOk result (out.new ≡ out.old ++ flat_map eco_entry ops.now) }
    ensures err { OnErr result (take (length out.old) out.new ≡ out.old) }
{
    for op in ops {
        put_eco_word(out, op)?;
    }
    Ok(())
}

/// Appends the operations, each behind a space.
#[tactic(auto, using(crate::proofs::Appending::psmos_spaced, crate::proofs::Appending::ecos_spaced), unfolding(crate::specs::Spelling::body_words))]
pub(crate) fn put_body(out: &mut Row<u8>, body: &Body) -> Result<(), NoMemory>
    ensures ok { OnOk result (out.new ≡ out.old ++ flat_map spaced (body_words body.now)) }
    ensures err { OnErr result (take (length out.old) out.new ≡ out.old) }
{
    match body {
        Body::Psmos(ops) => put_psmos(out, ops.as_slice()),
        Body::Ecos(ops) => put_ecos(out, ops.as_slice()),
    }
}
