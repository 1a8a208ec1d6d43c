ghost use Rattle.std.specs.Prelude.{◌≡◌, ℕ, List, Option, Some, None, MatchOption};
ghost use Rattle.sgp_der.specs.Fields.{Gives, part_at};
ghost use Rattle.sgp_fields.specs.Elements.{whole_at};
ghost use Rattle.sgp_fields.specs.Lists.{list_at};

use iot_bytes::{ReadError, Row};
use sgp_der::{Tlv, next};
use std::alloc::Global;

/// How an entry of a list is read: from the tag and the content of its element.
pub trait Listed<T> {
    /// The entry that a tag and a content are, where they are one.
    ghost entry_of: { ℕ → List ℕ → Option T };

    /// The entry that the tag and the content are.
    fn read(alloc: Global, tag: u8, content: &[u8]) -> Result<T, ReadError>
        ensures { Gives result (entry_of tag content.now) };
}

fn part(bytes: &[u8]) -> Option<Tlv<'_>>
    ensures { MatchOption result (part_at bytes.now ≡ None) (λ t. part_at bytes.now
        ≡ Some (record { tag = t.tag; content = t.content.now; rest = t.rest.now })) }
{
    next(bytes).ok()
}

/// The entries that the bytes are, one element behind the other, at most so many.
pub fn list<T: Drop, R: Listed<T>>(
    alloc: Global,
    bytes: &[u8],
    most: usize,
) -> Result<Row<T>, ReadError>
    ensures { Gives result (list_at R.entry_of most bytes.now) }
{
    let mut rows = Row::new(alloc);
    let mut rest = bytes;
    while !rest.is_empty() {
        if rows.len() >= most {
            return Err(ReadError::Malformed);
        }
        let Some(found) = part(rest) else {
            return Err(ReadError::Malformed);
        };
        let row = R::read(alloc, found.tag, found.content)?;
        if rows.push(row).is_err() {
            return Err(ReadError::NoMemory);
        }
        rest = found.rest;
    }
    Ok(rows)
}

/// The value of the one element that the bytes are, with nothing behind it.
#[tactic(auto, unfolding(crate::specs::Elements::whole_at))]
pub fn whole<T: Drop, R: Listed<T>>(alloc: Global, bytes: &[u8]) -> Result<T, ReadError>
    ensures { Gives result (whole_at R.entry_of bytes.now) }
{
    let Some(found) = part(bytes) else {
        return Err(ReadError::Malformed);
    };
    if !found.rest.is_empty() {
        return Err(ReadError::Malformed);
    }
    R::read(alloc, found.tag, found.content)
}
