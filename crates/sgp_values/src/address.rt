ghost use Rattle.std.specs.Prelude.{◌≡◌, MatchResult, Some, None};
ghost use Rattle.sgp_values.specs.Ranges.{IsAddress};
ghost use Rattle.sgp_values.specs.Reading.{address_of};

use crate::alphabet::are_address_octets;
use crate::bounded::Bounded;
use crate::out_of_range::OutOfRange;
use std::marker::Model;

const MAX_LENGTH: usize = 128;

/// The address of an eIM: 0 to 128 octets, each a visible character of ASCII, 21 to 7E, but not
/// `#`. It stands for SGP.32's `eimFqdn`; its range is this project's own.
#[derive(Clone, Copy, Debug, PartialEq, Eq, PartialOrd, Ord)]
pub struct Address {
    octets: Bounded<MAX_LENGTH>,
}

impl Model for Address {
    ghost use Rattle.std.specs.Prelude.{ℕ, List};
    ghost use Rattle.sgp_values.specs.Ranges.{IsAddress};

    ghost Value = { List ℕ };

    ghost view = { λ a. a.octets };

    ghost invariant = { λ a. IsAddress a.octets };

    ghost inverse = { λ xs. record { octets = xs } };
}

impl Address {
    /// The address that these octets are.
    ///
    /// # Errors
    /// `OutOfRange` where there are more than 128 octets, or where one is outside the alphabet.
    #[tactic(auto, using(crate::proofs::Reading::address_again, crate::proofs::Reading::address_refuses))]
    pub fn of(octets: &[u8]) -> Result<Address, OutOfRange>
        ensures value { MatchResult result (λ address. IsAddress octets.now
            × (address ≡ octets.now)) (λ _. ¬ IsAddress octets.now) }
        ensures exact { MatchResult result (λ address. address_of octets.now ≡ Some address)
            (λ _. address_of octets.now ≡ None) }
    {
        if octets.len() > MAX_LENGTH || !are_address_octets(octets) {
            return Err(OutOfRange);
        }
        Ok(Address {
            octets: Bounded::of(octets),
        })
    }

    /// The octets of this address.
    pub fn octets(&self) -> &[u8]
        ensures value { result.now ≡ self.now }
        ensures range { IsAddress self.now }
    {
        self.octets.as_slice()
    }
}
