//! Which values may stand in one list together.

ghost use Rattle.std.specs.Prelude.{◌≡◌, Bool};
ghost use Rattle.std.specs.List.{list_all};
ghost use Rattle.small_card.specs.Pairs.{each_pair, are_profiles_apart, are_lines_apart};
ghost use Rattle.small_card.specs.Pairs.{are_entries_apart, are_rising};

use crate::types::{EimEntry, EimLine, PackageResult, Profile};

/// Values of which not every two may stand in one list.
pub trait Apart {
    ghost are_apart: { Self → Self → Bool };

    /// Whether this value may stand before the other in one list.
    fn is_apart(&self, later: &Self) -> bool
        ensures apart { result ≡ are_apart self.now later.now };
}

impl Apart for Profile {
    ghost are_apart = { are_profiles_apart };

    fn is_apart(&self, later: &Profile) -> bool {
        self.iccid != later.iccid && !(self.enabled && later.enabled)
    }
}

impl Apart for EimLine {
    ghost are_apart = { are_lines_apart };

    fn is_apart(&self, later: &EimLine) -> bool {
        self.id != later.id && self.association != later.association
    }
}

impl Apart for EimEntry {
    ghost are_apart = { are_entries_apart };

    fn is_apart(&self, later: &EimEntry) -> bool {
        self.id != later.id && self.association != later.association
    }
}

/// Results stand in rising sequence numbers.
impl Apart for PackageResult {
    ghost are_apart = { are_rising };

    fn is_apart(&self, later: &PackageResult) -> bool {
        self.seq < later.seq
    }
}

fn is_apart_from_all<T: Apart>(one: &T, others: &[T]) -> bool
    ensures { result ≡ list_all (T.are_apart one.now) others.now }
{
    others.iter().all(|later| one.is_apart(later))
}

/// Whether each value of the list may stand before each later one.
#[tactic(auto, unfolding(crate::specs::Pairs::each_pair))]
pub fn are_all_apart<T: Apart>(rows: &[T]) -> bool
    ensures apart { result ≡ each_pair T.are_apart rows.now }
{
    match rows {
        [] => true,
        [first, rest @ ..] => is_apart_from_all(first, rest) && are_all_apart(rest),
    }
}
