ghost use Rattle.std.specs.Prelude.{◌≡◌, MatchResult, Some, None};
ghost use Rattle.sgp_values.specs.Ranges.{IsNickname};
ghost use Rattle.sgp_values.specs.Reading.{nickname_of};

use crate::bounded::Bounded;
use crate::out_of_range::OutOfRange;
use std::marker::Model;
use std::str;

const MAX_LENGTH: usize = 64;

/// The nickname of a profile: 0 to 64 octets of UTF-8. It stands for SGP.22's `profileNickname`;
/// that the octets are counted, and not the characters, is this project's own.
#[derive(Clone, Copy, Debug, PartialEq, Eq, PartialOrd, Ord)]
pub struct Nickname {
    octets: Bounded<MAX_LENGTH>,
}

impl Model for Nickname {
    ghost use Rattle.std.specs.Prelude.{ℕ, List};
    ghost use Rattle.sgp_values.specs.Ranges.{IsNickname};

    ghost Value = { List ℕ };

    ghost view = { λ a. a.octets };

    ghost invariant = { λ a. IsNickname a.octets };

    ghost inverse = { λ xs. record { octets = xs } };
}

impl Nickname {
    /// The nickname that these octets are.
    ///
    /// # Errors
    /// `OutOfRange` where there are more than 64 octets, or where they are not UTF-8.
    #[tactic(auto, using(crate::proofs::Reading::nickname_again, crate::proofs::Reading::nickname_refuses))]
    pub fn of(octets: &[u8]) -> Result<Nickname, OutOfRange>
        ensures value { MatchResult result (λ name. IsNickname octets.now × (name ≡ octets.now))
            (λ _. ¬ IsNickname octets.now) }
        ensures exact { MatchResult result (λ name. nickname_of octets.now ≡ Some name)
            (λ _. nickname_of octets.now ≡ None) }
    {
        if octets.len() > MAX_LENGTH || str::from_utf8(octets).is_err() {
            return Err(OutOfRange);
        }
        Ok(Nickname {
            octets: Bounded::of(octets),
        })
    }

    /// The octets of this nickname.
    pub fn octets(&self) -> &[u8]
        ensures value { result.now ≡ self.now }
        ensures range { IsNickname self.now }
    {
        self.octets.as_slice()
    }
}
