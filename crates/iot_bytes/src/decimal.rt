//! Numbers as decimal digits.

ghost use Rattle.std.specs.Prelude.{◌≡◌, ◌++◌, ◌<◌, ◌^◌, ◌↔◌, ℕ, List, Option, Some, OnOk, OnErr};
ghost use Rattle.std.specs.Fmt.{decimal};
ghost use Rattle.iot_bytes.specs.Decimals.{IsDecimal, ReadsDecimal, HasDecimalForm};

use crate::memory::NoMemory;
use crate::row::Row;
use itoa::Buffer;
use std::str;

/// Appends a number's decimal digits, or nothing where memory ran out.
pub fn put_decimal(out: &mut Row<u8>, n: u64) -> Result<(), NoMemory>
    ensures ok { OnOk result (out.new ≡ out.old ++ decimal n) }
    ensures err { OnErr result (out.new ≡ out.old) }
{
    let mut buffer = Buffer::new();
    out.append(buffer.format(n).as_bytes())
}

/// The number whose decimal digits the whole token is. It takes no memory.
///
/// None for an empty token, for any octet that is no digit (a sign or a space too), for a needless
/// leading zero, and above `u64::MAX`.
pub fn read_decimal(token: &[u8]) -> Option<u64>
    ensures { ReadsDecimal token.now result }
{
    let Ok(text) = str::from_utf8(token) else {
        return None;
    };
    let Ok(number) = text.parse() else {
        return None;
    };
    let mut buffer = Buffer::new();
    let is_spelling = buffer.format(number).as_bytes() == token;
    if is_spelling { Some(number) } else { None }
}

/// The law that reading a number gives back the number that was written.
pub fn decimal_comes_back()
    ensures { (n : ℕ) (answer : Option ℕ) → n < 2 ^ 64 → ReadsDecimal (decimal n) answer
        → answer ≡ Some n }
{}

/// The law that a number's decimal is the one text of digits with its value and without a needless
/// leading zero.
pub fn decimal_is_digits()
    ensures { (token : List ℕ) (n : ℕ) → n < 2 ^ 64 → IsDecimal token n ↔ HasDecimalForm token n }
{}
