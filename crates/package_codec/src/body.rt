//! Reading the operations of a package.

ghost use Rattle.sgp_der.specs.Fields.{Gives};
ghost use Rattle.package_codec.specs.Reading.{enable_of, disable_of, delete_of, list_profiles_of};
ghost use Rattle.package_codec.specs.Reading.{psmo_of, add_of, update_of, drop_of, list_eims_of};
ghost use Rattle.package_codec.specs.Reading.{eco_of, psmos_of, ecos_of, body_of, body_at};

use crate::tags::{eim, operations, profile};
use iot_bytes::ReadError;
use sgp_fields::{Fields, Listed, list, read_config, whole};
use sgp_values::{Address, EimId, Iccid, Key};
use small_card::limits::MOST_OPERATIONS;
use small_card::{Body, Eco, Psmo};
use std::alloc::Global;

#[tactic(auto, unfolding(crate::specs::Reading::enable_of))]
fn enable(content: &[u8]) -> Result<Psmo, ReadError>
    ensures { Gives result (enable_of content.now) }
{
    let mut fields = Fields::of(content);
    let iccid = fields.value::<Iccid>(profile::ICCID)?;
    let rollback = fields.last_mark(profile::ROLLBACK)?;
    Ok(Psmo::Enable { iccid, rollback })
}

#[tactic(auto, unfolding(crate::specs::Reading::disable_of))]
fn disable(content: &[u8]) -> Result<Psmo, ReadError>
    ensures { Gives result (disable_of content.now) }
{
    let iccid = Fields::of(content).last::<Iccid>(profile::ICCID)?;
    Ok(Psmo::Disable { iccid })
}

#[tactic(auto, unfolding(crate::specs::Reading::delete_of))]
fn delete_profile(content: &[u8]) -> Result<Psmo, ReadError>
    ensures { Gives result (delete_of content.now) }
{
    let iccid = Fields::of(content).last::<Iccid>(profile::ICCID)?;
    Ok(Psmo::Delete { iccid })
}

#[tactic(auto, unfolding(crate::specs::Reading::list_profiles_of))]
fn list_profiles(content: &[u8]) -> Result<Psmo, ReadError>
    ensures { Gives result (list_profiles_of content.now) }
{
    Fields::of(content).end()?;
    Ok(Psmo::List)
}

#[tactic(auto, unfolding(crate::specs::Reading::add_of))]
fn add(content: &[u8]) -> Result<Eco, ReadError>
    ensures { Gives result (add_of content.now) }
{
    let config = read_config(content)?;
    Ok(Eco::Add {
        id: config.id,
        address: config.address,
        key: config.key,
    })
}

#[tactic(auto, unfolding(crate::specs::Reading::update_of))]
fn update(content: &[u8]) -> Result<Eco, ReadError>
    ensures { Gives result (update_of content.now) }
{
    let mut fields = Fields::of(content);
    let id = fields.value::<EimId>(eim::ID)?;
    let address = fields.optional::<Address>(eim::ADDRESS)?;
    let key = fields.optional::<Key>(eim::KEY)?;
    fields.end()?;
    Ok(Eco::Update { id, address, key })
}

#[tactic(auto, unfolding(crate::specs::Reading::drop_of))]
fn delete_eim(content: &[u8]) -> Result<Eco, ReadError>
    ensures { Gives result (drop_of content.now) }
{
    let id = Fields::of(content).last::<EimId>(eim::ID)?;
    Ok(Eco::Delete { id })
}

#[tactic(auto, unfolding(crate::specs::Reading::list_eims_of))]
fn list_eims(content: &[u8]) -> Result<Eco, ReadError>
    ensures { Gives result (list_eims_of content.now) }
{
    Fields::of(content).end()?;
    Ok(Eco::List)
}

/// The operations on profiles, one element each.
pub(crate) struct PsmoEntry;

impl Listed<Psmo> for PsmoEntry {
    ghost use Rattle.package_codec.specs.Reading.{psmo_of};

    ghost entry_of = { psmo_of };

    #[tactic(auto, unfolding(crate::specs::Reading::psmo_of))]
    fn read(_alloc: Global, tag: u8, content: &[u8]) -> Result<Psmo, ReadError> {
        match tag {
            profile::ENABLE => enable(content),
            profile::DISABLE => disable(content),
            profile::DELETE => delete_profile(content),
            profile::LIST => list_profiles(content),
            _ => Err(ReadError::Malformed),
        }
    }
}

/// The operations on eIMs, one element each.
pub(crate) struct EcoEntry;

impl Listed<Eco> for EcoEntry {
    ghost use Rattle.package_codec.specs.Reading.{eco_of};

    ghost entry_of = { eco_of };

    #[tactic(auto, unfolding(crate::specs::Reading::eco_of))]
    fn read(_alloc: Global, tag: u8, content: &[u8]) -> Result<Eco, ReadError> {
        match tag {
            eim::ADD => add(content),
            eim::UPDATE => update(content),
            eim::DELETE => delete_eim(content),
            eim::LIST => list_eims(content),
            _ => Err(ReadError::Malformed),
        }
    }
}

/// The operations as one element, whose tag says the kind.
pub struct BodyEntry;

#[tactic(auto, unfolding(crate::specs::Reading::psmos_of))]
fn psmos(alloc: Global, content: &[u8]) -> Result<Body, ReadError>
    ensures { Gives result (psmos_of content.now) }
{
    let ops = list::<Psmo, PsmoEntry>(alloc, content, MOST_OPERATIONS)?;
    if ops.is_empty() {
        return Err(ReadError::Malformed);
    }
    Ok(Body::Psmos(ops))
}

#[tactic(auto, unfolding(crate::specs::Reading::ecos_of))]
fn ecos(alloc: Global, content: &[u8]) -> Result<Body, ReadError>
    ensures { Gives result (ecos_of content.now) }
{
    let ops = list::<Eco, EcoEntry>(alloc, content, MOST_OPERATIONS)?;
    if ops.is_empty() {
        return Err(ReadError::Malformed);
    }
    Ok(Body::Ecos(ops))
}

impl Listed<Body> for BodyEntry {
    ghost use Rattle.package_codec.specs.Reading.{body_of};

    ghost entry_of = { body_of };

    #[tactic(auto, unfolding(crate::specs::Reading::body_of))]
    fn read(alloc: Global, tag: u8, content: &[u8]) -> Result<Body, ReadError> {
        match tag {
            operations::PSMOS => psmos(alloc, content),
            operations::ECOS => ecos(alloc, content),
            _ => Err(ReadError::Malformed),
        }
    }
}

/// The operations that the octets are, one whole element.
#[tactic(auto, unfolding(crate::specs::Reading::body_at))]
pub(crate) fn body(alloc: Global, bytes: &[u8]) -> Result<Body, ReadError>
    ensures { Gives result (body_at bytes.now) }
{
    whole::<Body, BodyEntry>(alloc, bytes)
}
