ghost use Rattle.std.specs.Prelude.{◌≡◌, ◌+◌, ◌-◌, ◌^◌, min, None};

use crate::modem::Modem;
use sgp_values::Iccid;

/// A modem that counts the refreshes to a profile apart from those to none.
#[derive(Debug, Drop)]
pub struct SplitModem {
    shown: Option<Iccid>,
    to_profile: u64,
    to_none: u64,
}

impl SplitModem {
    /// A modem that shows no profile and was never refreshed.
    pub fn new() -> SplitModem
        ensures shown { result.shown ≡ None }
        ensures to_profile { result.to_profile ≡ 0 }
        ensures to_none { result.to_none ≡ 0 }
    {
        SplitModem {
            shown: None,
            to_profile: 0,
            to_none: 0,
        }
    }
}

impl Modem for SplitModem {
    ghost shown_iccid = { λ m. m.shown };

    ghost refresh_count = { λ m. min (m.to_profile + m.to_none) (2 ^ 64 - 1) };

    fn shows(&self) -> Option<Iccid> {
        self.shown
    }

    /// The sum of the two counts, or the last `u64` where the sum is above it.
    fn refreshes(&self) -> u64 {
        self.to_profile.saturating_add(self.to_none)
    }

    fn refresh(&mut self, now: Option<Iccid>) {
        match now {
            Some(_) => self.to_profile = self.to_profile.saturating_add(1),
            None => self.to_none = self.to_none.saturating_add(1),
        }
        self.shown = now;
    }
}
