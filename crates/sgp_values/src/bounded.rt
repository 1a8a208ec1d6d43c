ghost use Rattle.std.specs.Prelude.{◌≡◌, ◌==◌, ◌≤◌, ◌-◌, ◌++◌, length, replicate};
ghost use Rattle.std.specs.Cmp.Lexicographic.{slice_cmp, pointwise};
ghost use Rattle.std.specs.Cmp.Rules.{comparing};
ghost use Rattle.std.specs.Ordering.{nat_cmp, as_partial_cmp};
ghost use Rattle.std.proofs.Common.{rules};

use std::cmp::Ordering;
use std::marker::Model;

/// At most `N` octets, kept in an array with zeros behind them. Contracts see the octets alone, and
/// what is made over it compares as lists of octets do.
#[derive(Clone, Copy, Debug)]
pub struct Bounded<const N: usize> {
    bytes: [u8; N],
    len: usize,
}

impl<const N: usize> Model for Bounded<N> {
    ghost use Rattle.std.specs.Prelude.{ℕ, List, take};
    ghost use Rattle.sgp_values.specs.Padded.{IsPadded};

    ghost Value = { List ℕ };

    ghost use Rattle.sgp_values.specs.Inside.{kept, kept_again};

    ghost view = { λ a. take a.len a.bytes };

    ghost invariant = { λ a. IsPadded N a.len a.bytes };

    ghost inverse = { kept N };

    ghost inverse_ok = { kept_again N };
}

// The octets, with zeros behind them.
fn padded<const N: usize>(octets: &[u8]) -> [u8; N]
    requires { length octets.now ≤ N }
    ensures { result ≡ octets.now ++ replicate (N - length octets.now) 0 }
{
    let mut bytes = [0; N];
    bytes[..octets.len()].copy_from_slice(octets);
    bytes
}

impl<const N: usize> Bounded<N> {
    /// These octets.
    pub fn of(octets: &[u8]) -> Bounded<N>
        requires { length octets.now ≤ N }
        ensures { result ≡ octets.now }
    {
        Bounded {
            bytes: padded(octets),
            len: octets.len(),
        }
    }

    /// The octets, without the zeros behind them.
    pub fn as_slice(&self) -> &[u8]
        ensures { result.now ≡ self.now }
    {
        &self.bytes[..self.len]
    }
}

impl<const N: usize> PartialEq for Bounded<N> {
    ghost eq = { pointwise ◌==◌ };

    ghost laws = { Prim.search (comparing, rules) };

    fn eq(&self, other: &Bounded<N>) -> bool {
        self.as_slice() == other.as_slice()
    }
}

impl<const N: usize> Eq for Bounded<N> {
    ghost laws = { Prim.search (comparing, rules) };
}

impl<const N: usize> PartialOrd for Bounded<N> {
    ghost partial_cmp = { as_partial_cmp (slice_cmp nat_cmp) };

    ghost laws = { Prim.search (comparing, rules) };

    fn partial_cmp(&self, other: &Bounded<N>) -> Option<Ordering> {
        Some(self.cmp(other))
    }
}

impl<const N: usize> Ord for Bounded<N> {
    ghost cmp = { slice_cmp nat_cmp };

    ghost total = { Prim.search (comparing, rules) };

    ghost matches_partial_cmp = { Prim.search (comparing, rules) };

    ghost matches_eq = { Prim.search (comparing, rules) };

    fn cmp(&self, other: &Bounded<N>) -> Ordering {
        self.as_slice().cmp(other.as_slice())
    }
}
