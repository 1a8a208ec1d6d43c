ghost use Rattle.std.specs.Prelude.{◌≡◌, MatchResult, Some, None};
ghost use Rattle.sgp_values.specs.Ranges.{IsEimId};
ghost use Rattle.sgp_values.specs.Reading.{eim_id_of};

use crate::alphabet::are_names;
use crate::bounded::Bounded;
use crate::out_of_range::OutOfRange;
use std::marker::Model;

const MAX_LENGTH: usize = 128;

/// The identifier of an eIM, the manager of SGP.31 and SGP.32 that makes packages for a card: 1 to
/// 128 octets, each a letter or a digit of ASCII, `.`, `-` or `_`. The length is that of SGP.32's
/// `eimId`; the alphabet is this project's own.
#[derive(Clone, Copy, Debug, PartialEq, Eq, PartialOrd, Ord)]
pub struct EimId {
    octets: Bounded<MAX_LENGTH>,
}

impl Model for EimId {
    ghost use Rattle.std.specs.Prelude.{ℕ, List};
    ghost use Rattle.sgp_values.specs.Ranges.{IsEimId};

    ghost Value = { List ℕ };

    ghost view = { λ a. a.octets };

    ghost invariant = { λ a. IsEimId a.octets };

    ghost inverse = { λ xs. record { octets = xs } };
}

impl EimId {
    /// The identifier that these octets are.
    ///
    /// # Errors
    /// `OutOfRange` where there is no octet, where there are more than 128, or where one is
    /// outside the alphabet.
    #[tactic(auto, using(crate::proofs::Reading::eim_id_again, crate::proofs::Reading::eim_id_refuses))]
    pub fn of(octets: &[u8]) -> Result<EimId, OutOfRange>
        ensures value { MatchResult result (λ id. IsEimId octets.now × (id ≡ octets.now))
            (λ _. ¬ IsEimId octets.now) }
        ensures exact { MatchResult result (λ id. eim_id_of octets.now ≡ Some id)
            (λ _. eim_id_of octets.now ≡ None) }
    {
        if octets.is_empty() || octets.len() > MAX_LENGTH || !are_names(octets) {
            return Err(OutOfRange);
        }
        Ok(EimId {
            octets: Bounded::of(octets),
        })
    }

    /// The octets of this identifier.
    pub fn octets(&self) -> &[u8]
        ensures value { result.now ≡ self.now }
        ensures range { IsEimId self.now }
    {
        self.octets.as_slice()
    }
}
