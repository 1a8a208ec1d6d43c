//! Octets as hexadecimal digits.

ghost use Rattle.std.specs.Prelude.{◌≡◌, ◌≢◌, ◌++◌, ◌⊎◌, ℕ, List, Result, Ok, Err, OnOk, OnErr};
ghost use Rattle.hex.specs.Hex.{IsBytes};
ghost use Rattle.iot_bytes.specs.Hexes.{hex, ReadsHex};
ghost use Rattle.iot_bytes.specs.declared.memory.ReadError.{ReadError};
ghost use Rattle.hex.specs.declared.error.FromHexError.{FromHexError};

use crate::memory::{NoMemory, ReadError};
use crate::row::Row;
use hex::FromHexError;
use std::alloc::Global;

/// Appends the octets' digits in lower case, or nothing where memory ran out.
///
/// It also takes memory for the digits alone, and gives it back.
pub fn put_hex(out: &mut Row<u8>, octets: &[u8]) -> Result<(), NoMemory>
    ensures ok { OnOk result (out.new ≡ out.old ++ hex octets.now) }
    ensures err { OnErr result (out.new ≡ out.old) }
{
    let digits = hex::encode(out.allocator(), octets)?;
    out.append(digits.as_bytes())
}

/// The octets that the whole token spells. Digits of both cases are read, also mixed.
pub fn read_hex(alloc: Global, token: &[u8]) -> Result<Row<u8>, ReadError>
    ensures { ReadsHex token.now result }
{
    match hex::decode(alloc, token) {
        Ok(octets) => Ok(Row::from_vec(octets)),
        Err(error) => Err(refusal(error)),
    }
}

fn refusal(error: FromHexError) -> ReadError
    ensures { result ≡ ReadError.Malformed → error ≢ FromHexError.OutOfMemory }
{
    match error {
        FromHexError::OutOfMemory => ReadError::NoMemory,
        _ => ReadError::Malformed,
    }
}

/// The law that reading digits gives back the octets that were written, or wants memory.
pub fn hex_comes_back()
    ensures { (octets : List ℕ) (answer : Result (List ℕ) ReadError) → IsBytes octets
        → ReadsHex (hex octets) answer → (answer ≡ Ok octets) ⊎ (answer ≡ Err ReadError.NoMemory) }
{}
