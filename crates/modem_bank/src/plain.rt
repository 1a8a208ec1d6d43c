ghost use Rattle.std.specs.Prelude.{◌≡◌, None};

use crate::modem::Modem;
use sgp_values::Iccid;

/// A modem that counts all its refreshes in one number.
#[derive(Debug, Drop)]
pub struct PlainModem {
    shown: Option<Iccid>,
    count: u64,
}

impl PlainModem {
    /// A modem that shows no profile and was never refreshed.
    pub fn new() -> PlainModem
        ensures shown { result.shown ≡ None }
        ensures count { result.count ≡ 0 }
    {
        PlainModem {
            shown: None,
            count: 0,
        }
    }
}

impl Modem for PlainModem {
    ghost shown_iccid = { λ m. m.shown };

    ghost refresh_count = { λ m. m.count };

    fn shows(&self) -> Option<Iccid> {
        self.shown
    }

    fn refreshes(&self) -> u64 {
        self.count
    }

    fn refresh(&mut self, now: Option<Iccid>) {
        self.shown = now;
        self.count = self.count.saturating_add(1);
    }
}
