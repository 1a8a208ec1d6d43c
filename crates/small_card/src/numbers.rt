//! Rows that have numbers: eIMs have associations, and results have sequence numbers.

ghost use Rattle.std.specs.Prelude.{◌≡◌, ℕ};
ghost use Rattle.std.specs.List.{list_all};
ghost use Rattle.small_card.specs.Numbered.{is_given, are_numbered};

use crate::pairs::{Apart, are_all_apart};
use crate::types::{EimEntry, PackageResult};

/// Values that have a number each, which was given out when they came.
pub trait Numbered {
    ghost number: { Self → ℕ };

    /// The value's number.
    fn number(&self) -> u32
        ensures number { result ≡ number self.now };
}

impl Numbered for EimEntry {
    ghost number = { λ e. e.association };

    fn number(&self) -> u32 {
        self.association
    }
}

impl Numbered for PackageResult {
    ghost number = { λ r. r.seq };

    fn number(&self) -> u32 {
        self.seq
    }
}

fn is_given<T: Numbered>(row: &T, next: u32) -> bool
    ensures { result ≡ is_given next (T.number row.now) }
{
    let number = row.number();
    1 <= number && number < next
}

fn are_given<T: Numbered>(rows: &[T], next: u32) -> bool
    ensures { result ≡ list_all (λ row. is_given next (T.number row)) rows.now }
{
    rows.iter().all(|row| is_given(row, next))
}

/// Whether at most so many rows have numbers from 1 to below the next one, which is from 1, and
/// each may stand before each later one. It takes no memory.
#[tactic(auto, unfolding(crate::specs::Numbered::are_numbered))]
pub fn are_numbered<T: Apart + Numbered>(rows: &[T], most: usize, next: u32) -> bool
    ensures { result ≡ are_numbered most T.number T.are_apart next rows.now }
{
    rows.len() <= most && 1 <= next && are_given(rows, next) && are_all_apart(rows)
}
