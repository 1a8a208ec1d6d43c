ghost use Rattle.std.specs.Prelude.{◌≡◌, ◌≤◌, ℕ, List, Option, Some, None, IfSome, length};
ghost use Rattle.sgp_fields.specs.Values.{flag_of, number_of};

use sgp_der::uint;
use sgp_values::{Address, Eid, EimId, Iccid, Key, Nickname};

/// A value that a field's content may be.
pub trait Content: Copy {
    /// The value that a content is, where it is one.
    ghost content_of: { List ℕ → Option Self };

    /// The value that the content is, or none.
    fn of_content(content: &[u8]) -> Option<Self>
        ensures { result ≡ content_of content.now };
}

impl Content for Iccid {
    ghost use Rattle.sgp_values.specs.Reading.{iccid_of};

    ghost content_of = { iccid_of };

    fn of_content(content: &[u8]) -> Option<Iccid> {
        Iccid::of(content).ok()
    }
}

impl Content for Eid {
    ghost use Rattle.sgp_values.specs.Reading.{eid_of};

    ghost content_of = { eid_of };

    fn of_content(content: &[u8]) -> Option<Eid> {
        Eid::of(content).ok()
    }
}

impl Content for EimId {
    ghost use Rattle.sgp_values.specs.Reading.{eim_id_of};

    ghost content_of = { eim_id_of };

    fn of_content(content: &[u8]) -> Option<EimId> {
        EimId::of(content).ok()
    }
}

impl Content for Address {
    ghost use Rattle.sgp_values.specs.Reading.{address_of};

    ghost content_of = { address_of };

    fn of_content(content: &[u8]) -> Option<Address> {
        Address::of(content).ok()
    }
}

impl Content for Key {
    ghost use Rattle.sgp_values.specs.Reading.{key_of};

    ghost content_of = { key_of };

    fn of_content(content: &[u8]) -> Option<Key> {
        Key::of(content).ok()
    }
}

impl Content for Nickname {
    ghost use Rattle.sgp_values.specs.Reading.{nickname_of};

    ghost content_of = { nickname_of };

    fn of_content(content: &[u8]) -> Option<Nickname> {
        Nickname::of(content).ok()
    }
}

/// A value that is written as its octets, of which there are at most 128.
pub trait Octets {
    /// The octets of the value.
    ghost octets_of: { Self → List ℕ };

    /// Its octets.
    fn as_octets(&self) -> &[u8]
        ensures octets { result.now ≡ octets_of self.now }
        ensures few { length result.now ≤ 128 };
}

impl Octets for EimId {
    ghost use Rattle.sgp_fields.specs.Fields.{octets};

    ghost octets_of = { octets };

    fn as_octets(&self) -> &[u8] {
        self.octets()
    }
}

impl Octets for Address {
    ghost use Rattle.sgp_fields.specs.Fields.{octets};

    ghost octets_of = { octets };

    fn as_octets(&self) -> &[u8] {
        self.octets()
    }
}

impl Octets for Key {
    ghost use Rattle.sgp_fields.specs.Fields.{octets};

    ghost octets_of = { octets };

    fn as_octets(&self) -> &[u8] {
        self.octets()
    }
}

/// A flag is the integer 0 or 1.
impl Content for bool {
    ghost content_of = { flag_of };

    #[tactic(auto, unfolding(crate::specs::Values::flag_of))]
    fn of_content(content: &[u8]) -> Option<bool> {
        match uint(content)? {
            0 => Some(false),
            1 => Some(true),
            _ => None,
        }
    }
}

/// A mark has no content.
impl Content for () {
    ghost use Rattle.sgp_fields.specs.Values.{mark_of};

    ghost content_of = { mark_of };

    #[tactic(auto, unfolding(crate::specs::Values::mark_of))]
    fn of_content(content: &[u8]) -> Option<()> {
        if content.is_empty() { Some(()) } else { None }
    }
}

/// The number from the least to the greatest that an integer's content is.
#[tactic(auto, unfolding(crate::specs::Values::number_of))]
pub(crate) fn bounded(content: &[u8], least: u64, greatest: u64) -> Option<u64>
    ensures value { result ≡ number_of least greatest content.now }
    ensures range { IfSome result (λ n. (least ≤ n) × (n ≤ greatest)) }
{
    let n = uint(content)?;
    if least <= n && n <= greatest {
        Some(n)
    } else {
        None
    }
}
