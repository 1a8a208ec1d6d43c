//! The configuration of an eIM (SGP.32, EimConfigurationData): one production, for the packages
//! that add an eIM and for the first one that a card is given.

ghost use Rattle.std.specs.Prelude.{◌≡◌, ◌≤◌, ◌++◌, length, take, OnOk, OnErr};
ghost use Rattle.sgp_fields.specs.Fields.{Finds};
ghost use Rattle.sgp_fields.specs.Config.{config_of, config_content};

use crate::fields::Fields;
use crate::lengths::field_len;
use iot_bytes::{NoMemory, ReadError, Row};
use sgp_der::put_octets;
use sgp_values::{Address, EimId, Key};

const ID: u8 = 0x80;

const ADDRESS: u8 = 0x81;

const KEY: u8 = 0x82;

/// What a card keeps of an eIM from its configuration.
#[derive(Clone, Copy, Debug)]
pub struct EimConfig {
    /// Its identifier.
    pub id: EimId,
    /// Where it is reached.
    pub address: Address,
    /// The key of its packages.
    pub key: Key,
}

/// The configuration whose fields the content is.
///
/// # Errors
/// `Malformed` where the content isn't the fields of a configuration.
#[tactic(auto, unfolding(crate::specs::Config::config_of))]
pub fn read_config(content: &[u8]) -> Result<EimConfig, ReadError>
    ensures { Finds result (config_of content.now) }
{
    let mut fields = Fields::of(content);
    let id = fields.value::<EimId>(ID)?;
    let address = fields.value::<Address>(ADDRESS)?;
    let key = fields.last::<Key>(KEY)?;
    Ok(EimConfig { id, address, key })
}

/// How many octets the fields of a configuration have. It takes no memory.
#[tactic(auto, unfolding(crate::specs::Config::config_content), using(crate::proofs::Appending::length_both),)]
pub fn config_len(id: &EimId, address: &Address, key: &Key) -> usize
    ensures len { result ≡ length (config_content id.now address.now key.now) }
    ensures few { result ≤ 399 }
{
    field_len(id.octets()) + field_len(address.octets()) + field_len(key.octets())
}

/// Appends the fields of a configuration, or a part of them where memory runs out.
#[tactic(auto, unfolding(crate::specs::Config::config_content), using(crate::proofs::Appending::appended),)]
pub fn put_config(
    out: &mut Row<u8>,
    id: &EimId,
    address: &Address,
    key: &Key,
) -> Result<(), NoMemory>
    ensures ok { OnOk result (out.new ≡ out.old ++ config_content id.now address.now key.now) }
    ensures err { OnErr result (take (length out.old) out.new ≡ out.old) }
{
    put_octets(out, ID, id.octets())?;
    put_octets(out, ADDRESS, address.octets())?;
    put_octets(out, KEY, key.octets())
}
