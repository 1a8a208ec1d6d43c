//! What holds of every write, as a function that does nothing: its clauses are the laws.

ghost use Rattle.std.specs.Prelude.{◌≡◌, ◌⊎◌, ◌+◌, ◌<◌, ◌≤◌, List, ℕ, take, drop, get_or};
ghost use Rattle.chip_port.specs.Rules.{Torn};

/// What lies apart from a range that a write changed, or that a cut tore, is as before: each octet,
/// and each range of octets.
pub fn what_lies_apart_stays()
    ensures octet { (at n i : ℕ) (old new : List ℕ) → Torn at n old new
        → (i < at) ⊎ (at + n ≤ i) → get_or new i 0 ≡ get_or old i 0 }
    ensures range { (at n from k : ℕ) (old new : List ℕ) → Torn at n old new
        → (from + k ≤ at) ⊎ (at + n ≤ from) → take k (drop from new) ≡ take k (drop from old) }
{}
