//! Reading the fields of a record, one call a field.

ghost use Rattle.std.specs.Prelude.{◌≡◌, ◌≤◌, ℕ, List, Some, None, IfOk, MatchResult};
ghost use Rattle.sgp_der.specs.Fields.{ended, field_at, only_at};
ghost use Rattle.sgp_fields.specs.Fields.{Finds, Takes};
ghost use Rattle.sgp_fields.specs.Fields.{last_at, last_mark_at, optional_at, value_at};
ghost use Rattle.sgp_fields.specs.Values.{number_of};

use crate::values::{Content, bounded};
use iot_bytes::ReadError;
use sgp_der::{field, only};
use std::marker::Model;

/// The octets of a record whose first fields were read. Each call takes the next field off the
/// front, or the last one with the record; it answers `Malformed`, and takes nothing, where the
/// octets don't begin so.
#[derive(Debug, Drop)]
pub struct Fields<'a> {
    rest: &'a [u8],
}

/// Contracts see the octets that are left.
impl<'a> Model for Fields<'a> {
    ghost use Rattle.std.specs.Prelude.{ℕ, List};

    ghost Value = { List ℕ };

    ghost view = { λ r. r.rest.now };
}

impl<'a> Fields<'a> {
    /// The fields that these octets are.
    pub fn of(bytes: &'a [u8]) -> Fields<'a>
        ensures { result ≡ bytes.now }
    {
        Fields { rest: bytes }
    }

    /// The value of the field of this tag.
    #[tactic(auto, unfolding(crate::specs::Fields::value_at))]
    pub fn value<T: Content>(&mut self, tag: u8) -> Result<T, ReadError>
        ensures { Takes result (value_at T.content_of tag self.old) self.old self.new }
    {
        let found = field(self.rest, tag).ok_or(ReadError::Malformed)?;
        let x = T::of_content(found.content).ok_or(ReadError::Malformed)?;
        self.rest = found.rest;
        Ok(x)
    }

    /// The value of the field of this tag, or `None` where the field is left out.
    #[tactic(auto, unfolding(crate::specs::Fields::optional_at))]
    pub fn optional<T: Content>(&mut self, tag: u8) -> Result<Option<T>, ReadError>
        ensures { Takes result (optional_at T.content_of tag self.old) self.old self.new }
    {
        let Some(found) = field(self.rest, tag) else {
            return Ok(None);
        };
        let x = T::of_content(found.content).ok_or(ReadError::Malformed)?;
        self.rest = found.rest;
        Ok(Some(x))
    }

    /// The number from the least to the greatest in the field of this tag.
    #[tactic(auto, unfolding(crate::specs::Fields::value_at))]
    pub fn number(&mut self, tag: u8, least: u64, greatest: u64) -> Result<u64, ReadError>
        ensures value { Takes result (value_at (number_of least greatest) tag self.old)
            self.old self.new }
        ensures range { IfOk result (λ n. (least ≤ n) × (n ≤ greatest)) }
    {
        let found = field(self.rest, tag).ok_or(ReadError::Malformed)?;
        let n = bounded(found.content, least, greatest).ok_or(ReadError::Malformed)?;
        self.rest = found.rest;
        Ok(n)
    }

    /// The content of the field of this tag.
    pub fn content(&mut self, tag: u8) -> Result<&'a [u8], ReadError>
        ensures { MatchResult result
            (λ x. field_at tag self.old
            ≡ Some (record { tag = tag; content = x.now; rest = self.new }))
            (λ e. (e ≡ ReadError.Malformed) × (self.new ≡ self.old)
            × (field_at tag self.old ≡ None)) }
    {
        let found = field(self.rest, tag).ok_or(ReadError::Malformed)?;
        self.rest = found.rest;
        Ok(found.content)
    }

    /// The value of the field of this tag, which is the last.
    #[tactic(auto, unfolding(crate::specs::Fields::last_at))]
    pub fn last<T: Content>(self, tag: u8) -> Result<T, ReadError>
        ensures { Finds result (last_at T.content_of tag self.entry) }
    {
        let content = only(self.rest, tag).ok_or(ReadError::Malformed)?;
        T::of_content(content).ok_or(ReadError::Malformed)
    }

    /// The number from the least to the greatest in the field of this tag, which is the last.
    #[tactic(auto, unfolding(crate::specs::Fields::last_at))]
    pub fn last_number(self, tag: u8, least: u64, greatest: u64) -> Result<u64, ReadError>
        ensures value { Finds result (last_at (number_of least greatest) tag self.entry) }
        ensures range { IfOk result (λ n. (least ≤ n) × (n ≤ greatest)) }
    {
        let content = only(self.rest, tag).ok_or(ReadError::Malformed)?;
        bounded(content, least, greatest).ok_or(ReadError::Malformed)
    }

    /// The content of the field of this tag, which is the last.
    pub fn last_content(self, tag: u8) -> Result<&'a [u8], ReadError>
        ensures { MatchResult result (λ x. only_at tag self.entry ≡ Some x.now)
            (λ e. (e ≡ ReadError.Malformed) × (only_at tag self.entry ≡ None)) }
    {
        only(self.rest, tag).ok_or(ReadError::Malformed)
    }

    /// Whether the mark of this tag, an empty field, is there. It is the last field.
    #[tactic(auto, unfolding(crate::specs::Fields::last_mark_at))]
    pub fn last_mark(self, tag: u8) -> Result<bool, ReadError>
        ensures { Finds result (last_mark_at tag self.entry) }
    {
        if self.rest.is_empty() {
            return Ok(false);
        }
        let content = only(self.rest, tag).ok_or(ReadError::Malformed)?;
        if content.is_empty() {
            Ok(true)
        } else {
            Err(ReadError::Malformed)
        }
    }

    /// That no field is left.
    pub fn end(self) -> Result<(), ReadError>
        ensures { Finds result (ended self.entry) }
    {
        if self.rest.is_empty() {
            Ok(())
        } else {
            Err(ReadError::Malformed)
        }
    }

    /// The octets that are left.
    pub fn rest(self) -> &'a [u8]
        ensures { result.now ≡ self.entry }
    {
        self.rest
    }
}
