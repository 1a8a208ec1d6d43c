//! Reading the fields of a home, which are of fixed size, one call a field.

ghost use Rattle.std.specs.Prelude.{◌≡◌, ◌+◌, Some, None, IfOk, MatchResult, length};
ghost use Rattle.home_codec.specs.Fixed.{Reads, octet_at, octets_at, fixed_at, is_blank, blank_at};
ghost use Rattle.home_codec.specs.Fixed.{word_at, long_at, text_at};

use iot_bytes::ReadError;
use sgp_fields::Content;
use std::marker::Model;

/// The octets of a home whose first fields were read. Each call takes the next field off the front;
/// it answers `Malformed` where the octets don't begin so.
#[derive(Debug, Drop)]
pub(crate) struct FixedFields<'a> {
    rest: &'a [u8],
}

/// Contracts see the octets that are left.
impl<'a> Model for FixedFields<'a> {
    ghost use Rattle.std.specs.Prelude.{ℕ, List};

    ghost Value = { List ℕ };

    ghost view = { λ o. o.rest.now };
}

fn all_zeros(octets: &[u8]) -> bool
    ensures { result ≡ is_blank octets.now }
{
    octets.iter().all(|octet| *octet == 0)
}

impl<'a> FixedFields<'a> {
    /// The octets before a field was read.
    pub(crate) fn of(bytes: &'a [u8]) -> FixedFields<'a>
        ensures { result ≡ bytes.now }
    {
        FixedFields { rest: bytes }
    }

    /// One octet.
    pub(crate) fn octet(&mut self) -> Result<u8, ReadError>
        ensures { Reads result (octet_at self.old) self.new }
    {
        match self.rest {
            [first, rest @ ..] => {
                self.rest = rest;
                Ok(*first)
            }
            [] => Err(ReadError::Malformed),
        }
    }

    /// So many octets.
    #[tactic(auto, unfolding(crate::specs::Fixed::octets_at))]
    pub(crate) fn octets(&mut self, n: usize) -> Result<&'a [u8], ReadError>
        ensures value { MatchResult result
            (λ front. octets_at n self.old ≡ Some (front.now, self.new))
            (λ e. (e ≡ ReadError.Malformed) × (octets_at n self.old ≡ None)) }
        ensures len { IfOk result (λ front. length front.now ≡ n) }
        ensures rest { IfOk result (λ _. length self.old ≡ n + length self.new) }
    {
        if n > self.rest.len() {
            return Err(ReadError::Malformed);
        }
        let front = &self.rest[..n];
        self.rest = &self.rest[n..];
        Ok(front)
    }

    /// The value of a field of so many octets.
    #[tactic(auto, unfolding(crate::specs::Fixed::fixed_at))]
    pub(crate) fn fixed<T: Content>(&mut self, n: usize) -> Result<T, ReadError>
        ensures { Reads result (fixed_at T.content_of n self.old) self.new }
    {
        let field = self.octets(n)?;
        T::of_content(field).ok_or(ReadError::Malformed)
    }

    /// So many zeros.
    #[tactic(auto, unfolding(crate::specs::Fixed::blank_at))]
    pub(crate) fn blank(&mut self, n: usize) -> Result<(), ReadError>
        ensures { MatchResult result
            (λ _. blank_at n self.old ≡ Some self.new)
            (λ e. (e ≡ ReadError.Malformed) × (blank_at n self.old ≡ None)) }
    {
        let field = self.octets(n)?;
        if all_zeros(field) {
            Ok(())
        } else {
            Err(ReadError::Malformed)
        }
    }

    /// A number in four octets, big-endian.
    #[tactic(auto, unfolding(crate::specs::Fixed::word_at))]
    pub(crate) fn word(&mut self) -> Result<u32, ReadError>
        ensures value { Reads result (word_at self.old) self.new }
        ensures rest { IfOk result (λ _. length self.old ≡ 4 + length self.new) }
    {
        let mut field = [0; 4];
        field.copy_from_slice(self.octets(4)?);
        Ok(u32::from_be_bytes(field))
    }

    /// A number in eight octets, big-endian.
    #[tactic(auto, unfolding(crate::specs::Fixed::long_at))]
    pub(crate) fn long(&mut self) -> Result<u64, ReadError>
        ensures { Reads result (long_at self.old) self.new }
    {
        let mut field = [0; 8];
        field.copy_from_slice(self.octets(8)?);
        Ok(u64::from_be_bytes(field))
    }

    /// A text: its length, and then the text with zeros behind it in a field of so many octets.
    #[tactic(auto, unfolding(crate::specs::Fixed::text_at))]
    pub(crate) fn text<T: Content>(&mut self, n: usize) -> Result<T, ReadError>
        ensures { Reads result (text_at T.content_of n self.old) self.new }
    {
        let len = usize::from(self.octet()?);
        let field = self.octets(n)?;
        if len > n || !all_zeros(&field[len..]) {
            return Err(ReadError::Malformed);
        }
        T::of_content(&field[..len]).ok_or(ReadError::Malformed)
    }

    /// The octets that are left.
    pub(crate) fn rest(self) -> &'a [u8]
        ensures { result.now ≡ self.entry }
    {
        self.rest
    }
}
