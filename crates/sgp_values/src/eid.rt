ghost use Rattle.std.specs.Prelude.{◌≡◌, MatchResult, Some, None};
ghost use Rattle.sgp_values.specs.Eids.{IsEid};
ghost use Rattle.sgp_values.specs.Reading.{eid_of};

use crate::out_of_range::OutOfRange;
use std::marker::Model;

const LENGTH: usize = 16;

/// The EID that names a card, after SGP.02 and SGP.29: sixteen octets, two digits an octet. Any
/// octets are taken: the digits and their check digits are not looked at.
#[derive(Clone, Copy, Debug, PartialEq, Eq, PartialOrd, Ord)]
pub struct Eid {
    bytes: [u8; LENGTH],
}

impl Model for Eid {
    ghost use Rattle.std.specs.Prelude.{ℕ, List};
    ghost use Rattle.sgp_values.specs.Eids.{IsEid};

    ghost Value = { List ℕ };

    ghost view = { λ a. a.bytes };

    ghost invariant = { λ a. IsEid a.bytes };

    ghost inverse = { λ xs. record { bytes = xs } };
}

impl Eid {
    /// The EID that these octets are.
    ///
    /// # Errors
    /// `OutOfRange` where there are not exactly 16 octets.
    #[tactic(auto, using(crate::proofs::Reading::eid_again, crate::proofs::Reading::eid_refuses))]
    pub fn of(octets: &[u8]) -> Result<Eid, OutOfRange>
        ensures value { MatchResult result (λ id. IsEid octets.now × (id ≡ octets.now))
            (λ _. ¬ IsEid octets.now) }
        ensures exact { MatchResult result (λ id. eid_of octets.now ≡ Some id)
            (λ _. eid_of octets.now ≡ None) }
    {
        if octets.len() != LENGTH {
            return Err(OutOfRange);
        }
        let mut bytes = [0; LENGTH];
        bytes.copy_from_slice(octets);
        Ok(Eid { bytes })
    }

    /// The octets of this EID.
    pub fn octets(&self) -> &[u8]
        ensures value { result.now ≡ self.now }
        ensures range { IsEid self.now }
    {
        &self.bytes
    }
}
