//! What one word spells.

ghost use Rattle.std.specs.List.{position};
ghost use Rattle.std.specs.Prelude.{◌≡◌, ◌==◌, ◌≤◌, ℕ, List, Option, None, Some, IfSome};
ghost use Rattle.std.specs.Prelude.{MatchOption};
ghost use Rattle.sgp_der.specs.Fields.{Gives};
ghost use Rattle.sgp_values.specs.Reading.{address_of};
ghost use Rattle.iot_schedule.specs.Tokens.{before, behind, marked, hex_of, decimal_of, number_of};
ghost use Rattle.iot_schedule.specs.Tokens.{eid_word, iccid_word, address_word, key_digits};
ghost use Rattle.iot_schedule.specs.Tokens.{key_word, sign_of, nickname_digits, profile_word};
ghost use Rattle.iot_schedule.specs.Tokens.{pick_word, bytes_word, choice_of, tear_word};

use crate::types::Pick;
use crate::words::{Word, is};
use chip_port::Tear;
use iot_bytes::{ReadError, Row, read_decimal, read_hex};
use sgp_values::{Address, Eid, EimId, Iccid, Key, Nickname};
use small_card::Profile;
use std::alloc::Global;

/// Stands before an address.
pub(crate) const ADDRESS: u8 = b'@';

/// Stands before a key.
pub(crate) const KEY: u8 = b'#';

/// Stands before a nickname.
pub(crate) const NICKNAME: u8 = b'%';

/// Stands before what an operation is about.
pub(crate) const OBJECT: u8 = b':';

/// The octets that an even number of hexadecimal digits spells.
#[tactic(auto, using(crate::proofs::Deciding::hex_read))]
fn octets(alloc: Global, word: &[u8]) -> Result<Row<u8>, ReadError>
    ensures { Gives result (hex_of word.now) }
{
    read_hex(alloc, word)
}

/// The number whose decimal the word is.
#[tactic(auto, using(crate::proofs::Deciding::decimal_read))]
fn decimal(word: &[u8]) -> Option<u64>
    ensures { result ≡ decimal_of word.now }
{
    read_decimal(word)
}

/// The number from the least to the greatest whose decimal the word is.
#[tactic(auto, unfolding(crate::specs::Tokens::number_of))]
pub(crate) fn number(word: &[u8], least: u64, greatest: u64) -> Option<u64>
    ensures value { result ≡ number_of least greatest word.now }
    ensures range { IfSome result (λ n. (least ≤ n) × (n ≤ greatest)) }
{
    let n = decimal(word)?;
    if least <= n && n <= greatest {
        Some(n)
    } else {
        None
    }
}

/// Which of two words this one is: true for the first.
#[tactic(auto, using(crate::proofs::Deciding::chosen))]
pub(crate) fn choice(word: &[u8], first: &[u8], second: &[u8]) -> Option<bool>
    ensures { result ≡ choice_of first.now second.now word.now }
{
    if is(word, first) {
        Some(true)
    } else if is(word, second) {
        Some(false)
    } else {
        None
    }
}

// The place of the first mark.
fn place(text: &[u8], mark: u8) -> Option<usize>
    ensures { result ≡ position (λ b. b == mark) text.now }
{
    text.iter().position(|octet| *octet == mark)
}

/// What stands before the first mark, or the whole text, and what stands behind it.
#[tactic(auto, using(crate::proofs::Parting::parting))]
pub(crate) fn parted(text: &[u8], mark: u8) -> (&[u8], Option<&[u8]>)
    ensures before { result.0.now ≡ before mark text.now }
    ensures behind { MatchOption result.1 (behind mark text.now ≡ None)
        (λ rest. behind mark text.now ≡ Some rest.now) }
{
    match place(text, mark) {
        Some(at) => (&text[..at], Some(&text[at + 1..])),
        None => (text, None),
    }
}

/// What stands behind the mark that the word begins with.
fn behind_mark(word: &[u8], mark: u8) -> Option<&[u8]>
    ensures { MatchOption result (marked mark word.now ≡ None)
        (λ rest. marked mark word.now ≡ Some rest.now) }
{
    let (first, rest) = word.split_first()?;
    if *first == mark { Some(rest) } else { None }
}

impl Word for EimId {
    ghost use Rattle.sgp_values.specs.Reading.{eim_id_of};

    ghost value_of = { eim_id_of };

    fn of_word(_alloc: Global, word: &[u8]) -> Result<EimId, ReadError> {
        let Ok(id) = EimId::of(word) else {
            return Err(ReadError::Malformed);
        };
        Ok(id)
    }
}

impl Word for Eid {
    ghost value_of = { eid_word };

    #[tactic(auto, unfolding(crate::specs::Tokens::eid_word))]
    fn of_word(alloc: Global, word: &[u8]) -> Result<Eid, ReadError> {
        let octets = octets(alloc, word)?;
        let Ok(eid) = Eid::of(octets.as_slice()) else {
            return Err(ReadError::Malformed);
        };
        Ok(eid)
    }
}

impl Word for Iccid {
    ghost value_of = { iccid_word };

    #[tactic(auto, unfolding(crate::specs::Tokens::iccid_word))]
    fn of_word(alloc: Global, word: &[u8]) -> Result<Iccid, ReadError> {
        let octets = octets(alloc, word)?;
        let Ok(iccid) = Iccid::of(octets.as_slice()) else {
            return Err(ReadError::Malformed);
        };
        Ok(iccid)
    }
}

/// The address that the text is.
pub(crate) fn address(text: &[u8]) -> Result<Address, ReadError>
    ensures { Gives result (address_of text.now) }
{
    let Ok(address) = Address::of(text) else {
        return Err(ReadError::Malformed);
    };
    Ok(address)
}

impl Word for Address {
    ghost value_of = { address_word };

    #[tactic(auto, unfolding(crate::specs::Tokens::address_word))]
    fn of_word(_alloc: Global, word: &[u8]) -> Result<Address, ReadError> {
        let Some(text) = behind_mark(word, ADDRESS) else {
            return Err(ReadError::Malformed);
        };
        address(text)
    }
}

/// The key whose octets the digits spell.
#[tactic(auto, unfolding(crate::specs::Tokens::key_digits))]
pub(crate) fn key(alloc: Global, digits: &[u8]) -> Result<Key, ReadError>
    ensures { Gives result (key_digits digits.now) }
{
    let octets = octets(alloc, digits)?;
    let Ok(key) = Key::of(octets.as_slice()) else {
        return Err(ReadError::Malformed);
    };
    Ok(key)
}

impl Word for Key {
    ghost value_of = { key_word };

    #[tactic(auto, unfolding(crate::specs::Tokens::key_word))]
    fn of_word(alloc: Global, word: &[u8]) -> Result<Key, ReadError> {
        let Some(digits) = behind_mark(word, KEY) else {
            return Err(ReadError::Malformed);
        };
        key(alloc, digits)
    }
}

fn is_enabled(sign: u8) -> Option<bool>
    ensures { result ≡ sign_of sign }
{
    match sign {
        b'+' => Some(true),
        b'-' => Some(false),
        _ => None,
    }
}

/// The nickname whose octets the digits spell.
#[tactic(auto, unfolding(crate::specs::Tokens::nickname_digits))]
fn nickname(alloc: Global, digits: &[u8]) -> Result<Nickname, ReadError>
    ensures { Gives result (nickname_digits digits.now) }
{
    let octets = octets(alloc, digits)?;
    let Ok(nickname) = Nickname::of(octets.as_slice()) else {
        return Err(ReadError::Malformed);
    };
    Ok(nickname)
}

impl Word for Profile {
    ghost value_of = { profile_word };

    #[tactic(auto, unfolding(crate::specs::Tokens::profile_word))]
    fn of_word(alloc: Global, word: &[u8]) -> Result<Profile, ReadError> {
        let Some((sign, text)) = word.split_first() else {
            return Err(ReadError::Malformed);
        };
        let Some(enabled) = is_enabled(*sign) else {
            return Err(ReadError::Malformed);
        };
        let (digits, name) = parted(text, NICKNAME);
        let iccid = Iccid::of_word(alloc, digits)?;
        let Some(name) = name else {
            return Err(ReadError::Malformed);
        };
        let nickname = nickname(alloc, name)?;
        Ok(Profile {
            iccid,
            enabled,
            nickname,
        })
    }
}

impl Word for Pick {
    ghost value_of = { pick_word };

    #[tactic(auto, unfolding(crate::specs::Tokens::pick_word))]
    fn of_word(_alloc: Global, word: &[u8]) -> Result<Pick, ReadError> {
        if is(word, b"last") {
            return Ok(Pick::Last);
        }
        let Some(n) = number(word, 0, u64::from(u32::MAX)) else {
            return Err(ReadError::Malformed);
        };
        Ok(Pick::At(n as u32))
    }
}

/// The octets of a package.
impl Word for Row<u8> {
    ghost value_of = { bytes_word };

    #[tactic(auto, unfolding(crate::specs::Tokens::bytes_word))]
    fn of_word(alloc: Global, word: &[u8]) -> Result<Row<u8>, ReadError> {
        if word.is_empty() {
            return Err(ReadError::Malformed);
        }
        if is(word, b"-") {
            return Ok(Row::new(alloc));
        }
        octets(alloc, word)
    }
}

impl Word for Tear {
    ghost value_of = { tear_word };

    #[tactic(auto, unfolding(crate::specs::Tokens::tear_word))]
    fn of_word(_alloc: Global, word: &[u8]) -> Result<Tear, ReadError> {
        if is(word, b"old") {
            Ok(Tear::Old)
        } else if is(word, b"new") {
            Ok(Tear::New)
        } else if is(word, b"half") {
            Ok(Tear::Half)
        } else if is(word, b"junk") {
            Ok(Tear::Junk)
        } else {
            Err(ReadError::Malformed)
        }
    }
}
