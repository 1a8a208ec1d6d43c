ghost use Rattle.std.specs.Prelude.{◌≡◌, MatchResult, Some, None};
ghost use Rattle.sgp_values.specs.Ranges.{IsKey};
ghost use Rattle.sgp_values.specs.Reading.{key_of};

use crate::bounded::Bounded;
use crate::out_of_range::OutOfRange;
use std::marker::Model;

const MAX_LENGTH: usize = 128;

/// The public key of an eIM: 0 to 128 octets of any kind. It stands for SGP.32's
/// `eimPublicKeyData`; its range is this project's own, and nothing here reads it.
#[derive(Clone, Copy, Debug, PartialEq, Eq, PartialOrd, Ord)]
pub struct Key {
    octets: Bounded<MAX_LENGTH>,
}

impl Model for Key {
    ghost use Rattle.std.specs.Prelude.{ℕ, List};
    ghost use Rattle.sgp_values.specs.Ranges.{IsKey};

    ghost Value = { List ℕ };

    ghost view = { λ a. a.octets };

    ghost invariant = { λ a. IsKey a.octets };

    ghost inverse = { λ xs. record { octets = xs } };
}

impl Key {
    /// The key that these octets are.
    ///
    /// # Errors
    /// `OutOfRange` where there are more than 128 octets.
    #[tactic(auto, using(crate::proofs::Reading::key_again, crate::proofs::Reading::key_refuses))]
    pub fn of(octets: &[u8]) -> Result<Key, OutOfRange>
        ensures value { MatchResult result (λ key. IsKey octets.now × (key ≡ octets.now))
            (λ _. ¬ IsKey octets.now) }
        ensures exact { MatchResult result (λ key. key_of octets.now ≡ Some key)
            (λ _. key_of octets.now ≡ None) }
    {
        if octets.len() > MAX_LENGTH {
            return Err(OutOfRange);
        }
        Ok(Key {
            octets: Bounded::of(octets),
        })
    }

    /// The octets of this key.
    pub fn octets(&self) -> &[u8]
        ensures value { result.now ≡ self.now }
        ensures range { IsKey self.now }
    {
        self.octets.as_slice()
    }
}
