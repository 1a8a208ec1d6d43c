ghost use Rattle.std.specs.Prelude.{◌≡◌, Err, IfOk};
ghost use Rattle.small_card.specs.Histories.{History};
ghost use Rattle.small_card.specs.Checks.{refused};
ghost use Rattle.package_codec.specs.Checks.{check};
ghost use Rattle.small_card.specs.declared.types.Refused.{Refused};
ghost use Rattle.counter_check.specs.Loads.{IsRead, check_request};

use iot_bytes::ReadError;
use package_codec::read_signed;
use small_card::codes::load::{MALFORMED, TOO_LONG};
use small_card::limits::MOST_PACKAGE_OCTETS;
use small_card::{Package, Refused};
use std::alloc::Global;
use std::marker::Model;

/// A package that was read, with the verdict on its signature.
#[derive(Debug, Drop)]
pub struct Received {
    pub(crate) good: bool,
    pub(crate) load: Package,
}

impl Model for Received {
    ghost use Rattle.counter_check.specs.Loads.{Request};
    ghost use Rattle.small_card.specs.Ranges.{IsPackage};

    ghost Value = { Request };

    ghost view = { λ r. record { good = r.good; load = r.load } };

    ghost invariant = { λ r. IsPackage r.load };
}

/// Why no package was read.
#[derive(Clone, Copy, Debug, PartialEq, Eq)]
pub enum ParseEnd {
    /// The package is too long (code 8) or malformed (code 1).
    Refused(Refused),
    /// Memory ran out.
    NoMemory,
}

/// A refusal, but for a replay, carries no counters.
#[tactic(auto, unfolding(small_card::specs::Checks::refused))]
pub(crate) fn refused(code: u8) -> Refused
    ensures { result ≡ refused code }
{
    Refused {
        code,
        kept: 0,
        received: 0,
    }
}

impl Received {
    /// Reads a package that came with this verdict on its signature.
    ///
    /// # Errors
    /// Code 8 where it has more than 4,096 octets, else code 1 where it is malformed.
    pub fn parse(alloc: Global, good: bool, bytes: &[u8]) -> Result<Received, ParseEnd>
        ensures read { IfOk result (λ request. IsRead good bytes.now request) }
        ensures checked { IfOk result (λ request. (h : History)
            → check h good bytes.now ≡ check_request h request) }
        ensures refused { (why : Refused) → result ≡ Err (ParseEnd.Refused why) → (h : History)
            → check h good bytes.now ≡ Err why }
    {
        if bytes.len() > MOST_PACKAGE_OCTETS {
            return Err(ParseEnd::Refused(refused(TOO_LONG)));
        }
        match read_signed(alloc, bytes) {
            Ok(signed) => Ok(Received {
                good,
                load: signed.package,
            }),
            Err(ReadError::Malformed) => Err(ParseEnd::Refused(refused(MALFORMED))),
            Err(ReadError::NoMemory) => Err(ParseEnd::NoMemory),
        }
    }
}
