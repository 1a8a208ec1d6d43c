ghost use Rattle.std.specs.Prelude.{◌≡◌, MatchResult, Some, None};
ghost use Rattle.sgp_values.specs.Iccids.{IsIccid};
ghost use Rattle.sgp_values.specs.Reading.{iccid_of};

use crate::out_of_range::OutOfRange;
use std::marker::Model;

const LENGTH: usize = 10;

/// The ICCID that names a profile, after ITU-T E.118: ten octets, two digits an octet, as a card
/// stores it. Any octets are taken: which digits they are is not looked at.
#[derive(Clone, Copy, Debug, PartialEq, Eq, PartialOrd, Ord)]
pub struct Iccid {
    bytes: [u8; LENGTH],
}

impl Model for Iccid {
    ghost use Rattle.std.specs.Prelude.{ℕ, List};
    ghost use Rattle.sgp_values.specs.Iccids.{IsIccid};

    ghost Value = { List ℕ };

    ghost view = { λ a. a.bytes };

    ghost invariant = { λ a. IsIccid a.bytes };

    ghost inverse = { λ xs. record { bytes = xs } };
}

impl Iccid {
    /// The ICCID that these octets are.
    ///
    /// # Errors
    /// `OutOfRange` where there are not exactly 10 octets.
    #[tactic(auto, using(crate::proofs::Reading::iccid_again, crate::proofs::Reading::iccid_refuses))]
    pub fn of(octets: &[u8]) -> Result<Iccid, OutOfRange>
        ensures value { MatchResult result (λ id. IsIccid octets.now × (id ≡ octets.now))
            (λ _. ¬ IsIccid octets.now) }
        ensures exact { MatchResult result (λ id. iccid_of octets.now ≡ Some id)
            (λ _. iccid_of octets.now ≡ None) }
    {
        if octets.len() != LENGTH {
            return Err(OutOfRange);
        }
        let mut bytes = [0; LENGTH];
        bytes.copy_from_slice(octets);
        Ok(Iccid { bytes })
    }

    /// The octets of this ICCID.
    pub fn octets(&self) -> &[u8]
        ensures value { result.now ≡ self.now }
        ensures range { IsIccid self.now }
    {
        &self.bytes
    }
}
