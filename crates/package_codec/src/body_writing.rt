//! Writing the operations of a package. A length is asked for before what it is the length of is
//! written. Where memory runs out, a front of the octets may be left behind what was there before.

ghost use Rattle.std.specs.Prelude.{◌≡◌, ◌≤◌, ◌++◌, length, take, OnOk, OnErr};
ghost use Rattle.small_card.specs.Ranges.{IsBody};
ghost use Rattle.package_codec.specs.Spelling.{enable_content, iccid_content};
ghost use Rattle.package_codec.specs.Spelling.{id_content, update_content, body};

use crate::body::{EcoEntry, PsmoEntry};
use crate::tags::{eim, operations, profile};
use iot_bytes::{NoMemory, Row};
use sgp_der::{put_head, put_octets};
use sgp_fields::{
    Written, config_len, element_len, field_len, list_len, mark_len, optional_len, put_config,
    put_list, put_mark, put_optional,
};
use sgp_values::{Address, EimId, Iccid, Key};
use small_card::{Body, Eco, Psmo};

#[tactic(auto, unfolding(crate::specs::Spelling::iccid_content))]
fn iccid_len(iccid: &Iccid) -> usize
    ensures len { result ≡ length (iccid_content iccid.now) }
    ensures few { result ≤ 15 }
{
    field_len(iccid.octets())
}

#[tactic(auto, unfolding(crate::specs::Spelling::iccid_content))]
fn put_iccid(out: &mut Row<u8>, iccid: &Iccid) -> Result<(), NoMemory>
    ensures ok { OnOk result (out.new ≡ out.old ++ iccid_content iccid.now) }
    ensures err { OnErr result (take (length out.old) out.new ≡ out.old) }
{
    put_octets(out, profile::ICCID, iccid.octets())
}

#[tactic(auto, unfolding(crate::specs::Spelling::enable_content), using(sgp_fields::proofs::Appending::length_both))]
fn enable_len(iccid: &Iccid, rollback: bool) -> usize
    ensures len { result ≡ length (enable_content iccid.now rollback) }
    ensures few { result ≤ 20 }
{
    field_len(iccid.octets()) + mark_len(rollback)
}

#[tactic(auto, unfolding(crate::specs::Spelling::enable_content), using(sgp_fields::proofs::Appending::appended))]
fn put_enable(out: &mut Row<u8>, iccid: &Iccid, rollback: bool) -> Result<(), NoMemory>
    ensures ok { OnOk result (out.new ≡ out.old ++ enable_content iccid.now rollback) }
    ensures err { OnErr result (take (length out.old) out.new ≡ out.old) }
{
    put_octets(out, profile::ICCID, iccid.octets())?;
    put_mark(out, profile::ROLLBACK, rollback)
}

impl Written<Psmo> for PsmoEntry {
    ghost use Rattle.small_card.specs.Ranges.{IsPsmo};
    ghost use Rattle.package_codec.specs.Spelling.{psmo};

    ghost spelled = { psmo };

    ghost Fits = { IsPsmo };

    ghost most = { 25 };

    #[tactic(auto, unfolding(crate::specs::Spelling::psmo))]
    fn len(op: &Psmo) -> usize {
        match op {
            Psmo::Enable { iccid, rollback } => element_len(enable_len(iccid, *rollback)),
            Psmo::Disable { iccid } | Psmo::Delete { iccid } => element_len(iccid_len(iccid)),
            Psmo::List => element_len(0),
        }
    }

    #[tactic(auto, unfolding(crate::specs::Spelling::psmo), using(sgp_fields::proofs::Appending::headed, sgp_fields::proofs::Appending::kept_before))]
    fn put(out: &mut Row<u8>, op: &Psmo) -> Result<(), NoMemory> {
        match op {
            Psmo::Enable { iccid, rollback } => {
                put_head(out, profile::ENABLE, enable_len(iccid, *rollback))?;
                put_enable(out, iccid, *rollback)
            }
            Psmo::Disable { iccid } => {
                put_head(out, profile::DISABLE, iccid_len(iccid))?;
                put_iccid(out, iccid)
            }
            Psmo::Delete { iccid } => {
                put_head(out, profile::DELETE, iccid_len(iccid))?;
                put_iccid(out, iccid)
            }
            Psmo::List => put_octets(out, profile::LIST, &[]),
        }
    }
}

#[tactic(auto, unfolding(crate::specs::Spelling::id_content))]
fn id_len(id: &EimId) -> usize
    ensures len { result ≡ length (id_content id.now) }
    ensures few { result ≤ 133 }
{
    field_len(id.octets())
}

#[tactic(auto, unfolding(crate::specs::Spelling::id_content))]
fn put_id(out: &mut Row<u8>, id: &EimId) -> Result<(), NoMemory>
    ensures ok { OnOk result (out.new ≡ out.old ++ id_content id.now) }
    ensures err { OnErr result (take (length out.old) out.new ≡ out.old) }
{
    put_octets(out, eim::ID, id.octets())
}

#[tactic(auto, unfolding(crate::specs::Spelling::update_content), using(sgp_fields::proofs::Appending::length_both))]
fn update_len(id: &EimId, address: &Option<Address>, key: &Option<Key>) -> usize
    ensures len { result ≡ length (update_content id.now address.now key.now) }
    ensures few { result ≤ 399 }
{
    field_len(id.octets()) + optional_len(address) + optional_len(key)
}

#[tactic(auto, unfolding(crate::specs::Spelling::update_content), using(sgp_fields::proofs::Appending::appended))]
fn put_update(
    out: &mut Row<u8>,
    id: &EimId,
    address: &Option<Address>,
    key: &Option<Key>,
) -> Result<(), NoMemory>
    ensures ok { OnOk result (out.new ≡ out.old ++ update_content id.now address.now key.now) }
    ensures err { OnErr result (take (length out.old) out.new ≡ out.old) }
{
    put_octets(out, eim::ID, id.octets())?;
    put_optional(out, eim::ADDRESS, address)?;
    put_optional(out, eim::KEY, key)
}

impl Written<Eco> for EcoEntry {
    ghost use Rattle.small_card.specs.Ranges.{IsEco};
    ghost use Rattle.package_codec.specs.Spelling.{eco};

    ghost spelled = { eco };

    ghost Fits = { IsEco };

    ghost most = { 404 };

    #[tactic(auto, unfolding(crate::specs::Spelling::eco))]
    fn len(op: &Eco) -> usize {
        match op {
            Eco::Add { id, address, key } => element_len(config_len(id, address, key)),
            Eco::Update { id, address, key } => element_len(update_len(id, address, key)),
            Eco::Delete { id } => element_len(id_len(id)),
            Eco::List => element_len(0),
        }
    }

    #[tactic(auto, unfolding(crate::specs::Spelling::eco), using(sgp_fields::proofs::Appending::headed, sgp_fields::proofs::Appending::kept_before))]
    fn put(out: &mut Row<u8>, op: &Eco) -> Result<(), NoMemory> {
        match op {
            Eco::Add { id, address, key } => {
                put_head(out, eim::ADD, config_len(id, address, key))?;
                put_config(out, id, address, key)
            }
            Eco::Update { id, address, key } => {
                put_head(out, eim::UPDATE, update_len(id, address, key))?;
                put_update(out, id, address, key)
            }
            Eco::Delete { id } => {
                put_head(out, eim::DELETE, id_len(id))?;
                put_id(out, id)
            }
            Eco::List => put_octets(out, eim::LIST, &[]),
        }
    }
}

/// How many octets the operations have.
#[tactic(auto, unfolding(crate::specs::Spelling::body, small_card::specs::Ranges::IsBody))]
pub(crate) fn body_len(value: &Body) -> usize
    requires { IsBody value.now }
    ensures len { result ≡ length (body value.now) }
    ensures few { result ≤ 3237 }
{
    match value {
        Body::Psmos(ops) => element_len(list_len::<Psmo, PsmoEntry>(ops.as_slice())),
        Body::Ecos(ops) => element_len(list_len::<Eco, EcoEntry>(ops.as_slice())),
    }
}

/// Appends the one spelling of the operations, or a part of it where memory runs out.
#[tactic(auto, using(sgp_fields::proofs::Appending::headed, sgp_fields::proofs::Appending::kept_before), unfolding(crate::specs::Spelling::body, small_card::specs::Ranges::IsBody))]
pub(crate) fn put_body(out: &mut Row<u8>, value: &Body) -> Result<(), NoMemory>
    requires { IsBody value.now }
    ensures ok { OnOk result (out.new ≡ out.old ++ body value.now) }
    ensures err { OnErr result (take (length out.old) out.new ≡ out.old) }
{
    match value {
        Body::Psmos(ops) => {
            put_head(
                out,
                operations::PSMOS,
                list_len::<Psmo, PsmoEntry>(ops.as_slice()),
            )?;
            put_list::<Psmo, PsmoEntry>(out, ops.as_slice())
        }
        Body::Ecos(ops) => {
            put_head(
                out,
                operations::ECOS,
                list_len::<Eco, EcoEntry>(ops.as_slice()),
            )?;
            put_list::<Eco, EcoEntry>(out, ops.as_slice())
        }
    }
}
