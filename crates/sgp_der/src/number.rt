ghost use Rattle.std.specs.Prelude.{◌≡◌, ◌<◌, ◌^◌, ◌≤◌, ℕ, MatchOption, length as size};
ghost use Rattle.sgp_der.specs.Number.{IsUint, value_from, uint, uint_of};

/// The most octets of an integer's content: those of a `u64`, and one for the sign bit.
pub const MOST_UINT: usize = 9;
/// The least octet whose first bit is set.
const HIGH: u8 = 0x80;

/// The least number whose content has more than one octet.
pub(crate) const FROM_TWO: u64 = 0x80;

// The number of at most nine octets.
fn value(content: &[u8]) -> u128
    requires { size content.now ≤ MOST_UINT }
    ensures { result ≡ value_from 0 content.now }
{
    let mut n: u128 = 0;
    for b in content {
        n = n * 256 + u128::from(*b);
    }
    n
}

/// The number whose content the octets are: the shortest two's complement of
/// a number from 0 to 2^64 - 1 (X.690). `None` for a negative number, for
/// octets that a shorter content replaces, for none at all, and for a greater
/// number.
#[tactic(auto, unfolding(crate::specs::Number::uint_of))]
pub fn uint(content: &[u8]) -> Option<u64>
    ensures number { MatchOption result ((n : ℕ) → n < 2 ^ 64 → IsUint content.now n → ⊥)
        (λ n. IsUint content.now n) }
    ensures exact { result ≡ uint_of content.now }
{
    match content {
        [] => return None,
        [first, ..] if *first >= HIGH => return None,
        [0, second, ..] if *second < HIGH => return None,
        _ => {}
    }
    if content.len() > MOST_UINT {
        return None;
    }
    let n = value(content);
    if n > u128::from(u64::MAX) {
        return None;
    }
    Some(n as u64)
}

/// How many octets the content of an integer has: 1 to 9.
pub fn uint_len(n: u64) -> usize
    ensures len { result ≡ size (uint n) }
    ensures few { result ≤ MOST_UINT }
{
    let mut len = 1;
    let mut left = n;
    while left >= FROM_TWO {
        left /= 256;
        len += 1;
    }
    len
}
