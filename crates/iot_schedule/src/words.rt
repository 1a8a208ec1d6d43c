//! The words of a line, read from the left.

ghost use Rattle.std.specs.Prelude.{◌≡◌, ◌≤◌, length, [], ◌∷◌, List, Option, ℕ, None, Some};
ghost use Rattle.std.specs.Prelude.{MatchOption, IfOk, MatchBool, ◌≢◌};
ghost use Rattle.iot_bytes.specs.Tokens.{token_at};
ghost use Rattle.sgp_der.specs.Fields.{Gives};
ghost use Rattle.iot_schedule.specs.Words.{words, words_behind, word_at, last_word, no_word};
ghost use Rattle.iot_schedule.specs.Words.{list_of, GivesWord};
ghost use Rattle.small_card.specs.Lists.{same};
ghost use Rattle.iot_schedule.specs.Tokens.{number_of, choice_of};

use crate::tokens::{choice, number};
use iot_bytes::{ReadError, Row, next_token};
use std::alloc::Global;
use std::marker::Model;

/// A value that is spelled by one word.
pub(crate) trait Word {
    /// The value that a word spells, where it spells one.
    ghost value_of: { List ℕ → Option Self };

    /// The value that the word spells.
    fn of_word(alloc: Global, word: &[u8]) -> Result<Self, ReadError>
        ensures { Gives result (value_of word.now) };
}

/// The words of a line that are still to be read. Contracts see them as their list.
#[derive(Drop)]
pub(crate) struct Words<'a> {
    /// What stands behind the last word that was read: nothing, or a space and the other words.
    rest: &'a [u8],
}

impl<'a> Model for Words<'a> {
    ghost use Rattle.std.specs.Prelude.{List, ℕ};
    ghost use Rattle.iot_schedule.specs.Words.{words_behind};

    ghost Value = { List (List ℕ) };

    ghost view = { λ w. words_behind w.rest.now };
}

/// Whether the word is this one.
pub(crate) fn is(word: &[u8], name: &[u8]) -> bool
    ensures { result ≡ same word.now name.now }
{
    word == name
}

// Where the first word of a text has ended.
#[tactic(auto, using(crate::proofs::Splitting::no_token))]
fn word_end(text: &[u8]) -> usize
    ensures end { result ≡ length (token_at text.now 0) }
    ensures within { result ≤ length text.now }
{
    match next_token(text, 0) {
        Some((_, end)) => end,
        None => 0,
    }
}

/// The first word of a text, and what stands behind it.
#[tactic(auto, using(crate::proofs::Splitting::words_cut))]
fn first_word(text: &[u8]) -> (&[u8], &[u8])
    ensures { words text.now ≡ result.0.now ∷ words_behind result.1.now }
{
    let end = word_end(text);
    (&text[..end], &text[end..])
}

/// The keyword of a line, and the words behind it.
pub(crate) fn keyword(text: &[u8]) -> (&[u8], Words<'_>)
    ensures { words text.now ≡ result.0.now ∷ result.1 }
{
    let (name, rest) = first_word(text);
    (name, Words { rest })
}

impl<'a> Words<'a> {
    /// The next word.
    pub fn take(&mut self) -> Option<&'a [u8]>
        ensures { MatchOption result ((self.old ≡ []) × (self.new ≡ []))
            (λ word. self.old ≡ word.now ∷ self.new) }
    {
        let (_space, text) = self.rest.split_first()?;
        let (word, rest) = first_word(text);
        self.rest = rest;
        Some(word)
    }

    /// The next word, which stays to be read.
    pub fn first(&self) -> Option<&'a [u8]>
        ensures { MatchOption result (self.now ≡ [])
            (λ word. (others : List (List ℕ)) × (self.now ≡ word.now ∷ others)) }
    {
        let (_space, text) = self.rest.split_first()?;
        let (word, _rest) = first_word(text);
        Some(word)
    }

    /// Whether no word is left.
    pub fn ended(&self) -> bool
        ensures { MatchBool result (self.now ≡ []) (self.now ≢ []) }
    {
        self.rest.is_empty()
    }

    /// The value that the next word spells.
    #[tactic(auto, unfolding(crate::specs::Words::word_at))]
    pub fn next<T: Word>(&mut self, alloc: Global) -> Result<T, ReadError>
        ensures { GivesWord result self.new (word_at T.value_of self.old) }
    {
        let Some(word) = self.take() else {
            return Err(ReadError::Malformed);
        };
        T::of_word(alloc, word)
    }

    /// The value that the one word spells which is left.
    #[tactic(auto, unfolding(crate::specs::Words::last_word))]
    pub fn last<T: Word>(&mut self, alloc: Global) -> Result<T, ReadError>
        ensures { Gives result (last_word T.value_of self.old) }
    {
        let Some(word) = self.take() else {
            return Err(ReadError::Malformed);
        };
        if !self.ended() {
            return Err(ReadError::Malformed);
        }
        T::of_word(alloc, word)
    }

    /// Nothing, where no word is left.
    #[tactic(auto, unfolding(crate::specs::Words::no_word))]
    pub fn end(&self) -> Result<(), ReadError>
        ensures { Gives result (no_word self.now) }
    {
        if self.ended() {
            Ok(())
        } else {
            Err(ReadError::Malformed)
        }
    }

    /// The number from the least to the greatest that the next word spells.
    #[tactic(auto, unfolding(crate::specs::Words::word_at))]
    pub fn number(&mut self, least: u64, greatest: u64) -> Result<u64, ReadError>
        ensures value { GivesWord result self.new (word_at (number_of least greatest) self.old) }
        ensures range { IfOk result (λ n. (least ≤ n) × (n ≤ greatest)) }
    {
        let Some(word) = self.take() else {
            return Err(ReadError::Malformed);
        };
        let Some(n) = number(word, least, greatest) else {
            return Err(ReadError::Malformed);
        };
        Ok(n)
    }

    /// The number from the least to the greatest that the one word spells which is left.
    #[tactic(auto, unfolding(crate::specs::Words::last_word))]
    pub fn last_number(&mut self, least: u64, greatest: u64) -> Result<u64, ReadError>
        ensures value { Gives result (last_word (number_of least greatest) self.old) }
        ensures range { IfOk result (λ n. (least ≤ n) × (n ≤ greatest)) }
    {
        let Some(word) = self.take() else {
            return Err(ReadError::Malformed);
        };
        if !self.ended() {
            return Err(ReadError::Malformed);
        }
        let Some(n) = number(word, least, greatest) else {
            return Err(ReadError::Malformed);
        };
        Ok(n)
    }

    /// Which of two words the next one is: true for the first.
    #[tactic(auto, unfolding(crate::specs::Words::word_at))]
    pub fn choice(&mut self, first: &[u8], second: &[u8]) -> Result<bool, ReadError>
        ensures { GivesWord result self.new (word_at (choice_of first.now second.now) self.old) }
    {
        let Some(word) = self.take() else {
            return Err(ReadError::Malformed);
        };
        let Some(chosen) = choice(word, first, second) else {
            return Err(ReadError::Malformed);
        };
        Ok(chosen)
    }

    /// Which of two words the one is that is left: true for the first.
    #[tactic(auto, unfolding(crate::specs::Words::last_word))]
    pub fn last_choice(&mut self, first: &[u8], second: &[u8]) -> Result<bool, ReadError>
        ensures { Gives result (last_word (choice_of first.now second.now) self.old) }
    {
        let Some(word) = self.take() else {
            return Err(ReadError::Malformed);
        };
        if !self.ended() {
            return Err(ReadError::Malformed);
        }
        let Some(chosen) = choice(word, first, second) else {
            return Err(ReadError::Malformed);
        };
        Ok(chosen)
    }

    /// The values that the words spell which are left, at most so many.
    pub fn list<T: Word + Drop>(&mut self, alloc: Global, most: usize) -> Result<Row<T>, ReadError>
        ensures { Gives result (list_of T.value_of most self.old) }
    {
        let mut values = Row::new(alloc);
        while !self.ended() {
            if values.len() >= most {
                return Err(ReadError::Malformed);
            }
            let value = self.next::<T>(alloc)?;
            if values.push(value).is_err() {
                return Err(ReadError::NoMemory);
            }
        }
        Ok(values)
    }
}
