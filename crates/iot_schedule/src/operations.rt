//! The operations that an order names, one word each.

ghost use Rattle.std.specs.Prelude.{◌≡◌, None, Some, is_some, MatchOption, MatchResult};
ghost use Rattle.sgp_der.specs.Fields.{Gives};
ghost use Rattle.sgp_values.specs.Reading.{eim_id_of, address_of};
ghost use Rattle.iot_bytes.specs.declared.memory.ReadError.{ReadError};
ghost use Rattle.iot_schedule.specs.Tokens.{key_digits};
ghost use Rattle.iot_schedule.specs.Operations.{psmo_named, psmo_word, optional_of, add_of};
ghost use Rattle.iot_schedule.specs.Operations.{update_of, drop_of, eco_named, eco_word, psmos_of};
ghost use Rattle.iot_schedule.specs.Operations.{ecos_of, body_of};

use crate::tokens::{ADDRESS, KEY, OBJECT, address, key, parted};
use crate::words::{Word, Words, is};
use iot_bytes::ReadError;
use sgp_values::{Address, EimId, Iccid, Key};
use small_card::limits::MOST_OPERATIONS;
use small_card::{Body, Eco, Psmo};
use std::alloc::Global;

#[tactic(auto, unfolding(crate::specs::Operations::psmo_named))]
fn psmo_named(name: &[u8], iccid: Iccid) -> Option<Psmo>
    ensures { result ≡ psmo_named name.now iccid }
{
    if is(name, b"enable") {
        Some(Psmo::Enable {
            iccid,
            rollback: false,
        })
    } else if is(name, b"enable!") {
        Some(Psmo::Enable {
            iccid,
            rollback: true,
        })
    } else if is(name, b"disable") {
        Some(Psmo::Disable { iccid })
    } else if is(name, b"delete") {
        Some(Psmo::Delete { iccid })
    } else {
        None
    }
}

impl Word for Psmo {
    ghost value_of = { psmo_word };

    #[tactic(auto, unfolding(crate::specs::Operations::psmo_word))]
    fn of_word(alloc: Global, word: &[u8]) -> Result<Psmo, ReadError> {
        if is(word, b"list") {
            return Ok(Psmo::List);
        }
        let (name, digits) = parted(word, OBJECT);
        let Some(digits) = digits else {
            return Err(ReadError::Malformed);
        };
        let iccid = Iccid::of_word(alloc, digits)?;
        let Some(op) = psmo_named(name, iccid) else {
            return Err(ReadError::Malformed);
        };
        Ok(op)
    }
}

fn eim_id(text: &[u8]) -> Result<EimId, ReadError>
    ensures { Gives result (eim_id_of text.now) }
{
    let Ok(id) = EimId::of(text) else {
        return Err(ReadError::Malformed);
    };
    Ok(id)
}

#[tactic(auto, unfolding(crate::specs::Operations::add_of))]
fn add(alloc: Global, text: &[u8]) -> Result<Eco, ReadError>
    ensures { Gives result (add_of text.now) }
{
    let (front, digits) = parted(text, KEY);
    let Some(digits) = digits else {
        return Err(ReadError::Malformed);
    };
    let (name, rest) = parted(front, ADDRESS);
    let Some(rest) = rest else {
        return Err(ReadError::Malformed);
    };
    let id = eim_id(name)?;
    let address = address(rest)?;
    let key = key(alloc, digits)?;
    Ok(Eco::Add { id, address, key })
}

fn optional_address(text: Option<&[u8]>) -> Result<Option<Address>, ReadError>
    ensures { MatchOption text.entry (Gives result (optional_of address_of None))
        (λ t. Gives result (optional_of address_of (Some t.now))) }
{
    match text {
        None => Ok(None),
        Some(text) => Ok(Some(address(text)?)),
    }
}

fn optional_key(alloc: Global, digits: Option<&[u8]>) -> Result<Option<Key>, ReadError>
    ensures { MatchOption digits.entry (Gives result (optional_of key_digits None))
        (λ t. Gives result (optional_of key_digits (Some t.now))) }
{
    match digits {
        None => Ok(None),
        Some(digits) => Ok(Some(key(alloc, digits)?)),
    }
}

#[tactic(auto, unfolding(crate::specs::Operations::update_of))]
fn update(alloc: Global, text: &[u8]) -> Result<Eco, ReadError>
    ensures { Gives result (update_of text.now) }
{
    let (front, digits) = parted(text, KEY);
    let (name, rest) = parted(front, ADDRESS);
    let id = eim_id(name)?;
    let address = optional_address(rest)?;
    let key = optional_key(alloc, digits)?;
    Ok(Eco::Update { id, address, key })
}

#[tactic(auto, unfolding(crate::specs::Operations::drop_of))]
fn drop_eim(text: &[u8]) -> Result<Eco, ReadError>
    ensures { Gives result (drop_of text.now) }
{
    let id = eim_id(text)?;
    Ok(Eco::Delete { id })
}

#[tactic(auto, unfolding(crate::specs::Operations::eco_named))]
fn eco_named(alloc: Global, name: &[u8], text: &[u8]) -> Result<Eco, ReadError>
    ensures { Gives result (eco_named name.now text.now) }
{
    if is(name, b"add") {
        add(alloc, text)
    } else if is(name, b"update") {
        update(alloc, text)
    } else if is(name, b"drop") {
        drop_eim(text)
    } else {
        Err(ReadError::Malformed)
    }
}

impl Word for Eco {
    ghost value_of = { eco_word };

    #[tactic(auto, unfolding(crate::specs::Operations::eco_word))]
    fn of_word(alloc: Global, word: &[u8]) -> Result<Eco, ReadError> {
        if is(word, b"eims") {
            return Ok(Eco::List);
        }
        let (name, text) = parted(word, OBJECT);
        let Some(text) = text else {
            return Err(ReadError::Malformed);
        };
        eco_named(alloc, name, text)
    }
}

fn is_psmo(alloc: Global, word: &[u8]) -> Result<bool, ReadError>
    ensures { MatchResult result (λ is. is ≡ is_some (psmo_word word.now))
        (λ e. e ≡ ReadError.NoMemory) }
{
    match Psmo::of_word(alloc, word) {
        Ok(_) => Ok(true),
        Err(ReadError::Malformed) => Ok(false),
        Err(ReadError::NoMemory) => Err(ReadError::NoMemory),
    }
}

#[tactic(auto, unfolding(crate::specs::Operations::psmos_of))]
fn psmos(alloc: Global, words: &mut Words) -> Result<Body, ReadError>
    ensures { Gives result (psmos_of words.old) }
{
    let ops = words.list::<Psmo>(alloc, MOST_OPERATIONS)?;
    Ok(Body::Psmos(ops))
}

#[tactic(auto, unfolding(crate::specs::Operations::ecos_of))]
fn ecos(alloc: Global, words: &mut Words) -> Result<Body, ReadError>
    ensures { Gives result (ecos_of words.old) }
{
    let ops = words.list::<Eco>(alloc, MOST_OPERATIONS)?;
    Ok(Body::Ecos(ops))
}

/// The operations that the words are, 1 to 8 of the kind of the first one.
#[tactic(auto, unfolding(crate::specs::Operations::body_of))]
pub(crate) fn body(alloc: Global, words: &mut Words) -> Result<Body, ReadError>
    ensures { Gives result (body_of words.old) }
{
    let Some(first) = words.first() else {
        return Err(ReadError::Malformed);
    };
    if is_psmo(alloc, first)? {
        psmos(alloc, words)
    } else {
        ecos(alloc, words)
    }
}
