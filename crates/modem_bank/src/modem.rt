ghost use Rattle.std.specs.Prelude.{◌≡◌, ℕ, List, Option, ◌+◌, ◌-◌, ◌^◌, min};

use sgp_values::Iccid;

/// A modem, seen as the profile that it shows and how often it was refreshed.
///
/// The count stands still at the last `u64`.
pub trait Modem: Drop {
    ghost shown_iccid: { Self → Option (List ℕ) };

    ghost refresh_count: { Self → ℕ };

    /// The profile that the modem shows as enabled, none before the first refresh.
    fn shows(&self) -> Option<Iccid>
        ensures { result ≡ shown_iccid self.now };

    /// How often the modem was refreshed.
    fn refreshes(&self) -> u64
        ensures { result ≡ refresh_count self.now };

    /// Tells the modem which profile is enabled now.
    fn refresh(&mut self, now: Option<Iccid>)
        ensures shown { shown_iccid self.new ≡ now }
        ensures counted { refresh_count self.new ≡ min (refresh_count self.old + 1) (2 ^ 64 - 1) };
}
