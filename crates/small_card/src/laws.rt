ghost use Rattle.std.specs.Prelude.{◌≡◌, ◌≢◌, ◌↔◌, ℕ, true, List, ◌∷◌, ◌++◌, Some};
ghost use Rattle.sgp_values.specs.Eids.{IsEid};
ghost use Rattle.small_card.specs.Cards.{FullCard};
ghost use Rattle.small_card.specs.Fresh.{fresh};
ghost use Rattle.small_card.specs.Histories.{History, card_of, former_of, full_of, with_unit};
ghost use Rattle.small_card.specs.Laws.{IsAlone, IsCounted, HasPassed, Moves, AreAlikeInNumbers};
ghost use Rattle.small_card.specs.Legal.{IsLegal, IsLegalFrom, IsOnce, May};
ghost use Rattle.small_card.specs.Lists.{EveryPair};
ghost use Rattle.small_card.specs.Packages.{result_of};
ghost use Rattle.small_card.specs.Pairs.{each_pair, are_profiles_apart, are_lines_apart};
ghost use Rattle.small_card.specs.Pairs.{are_entries_apart, are_rising};
ghost use Rattle.small_card.specs.Pending.{IsAdded, IsRemoved, IsRolledBack, IsOther};
ghost use Rattle.small_card.specs.Prefixes.{first_units};
ghost use Rattle.small_card.specs.Ranges.{AreApart, AreLinesApart, IsBefore, IsTable};
ghost use Rattle.small_card.specs.Steps.{step_full};
ghost use Rattle.small_card.specs.Units.{CardUnit, load, rollback, remove};
ghost use Rattle.small_card.specs.Valid.{IsValid, AreEntriesApart};
ghost use Rattle.small_card.specs.declared.types.Armed.{Armed};
ghost use Rattle.small_card.specs.declared.types.EimEntry.{EimEntry};
ghost use Rattle.small_card.specs.declared.types.EimLine.{EimLine};
ghost use Rattle.small_card.specs.declared.types.Package.{Package};
ghost use Rattle.small_card.specs.declared.types.PackageResult.{PackageResult};
ghost use Rattle.small_card.specs.declared.types.Profile.{Profile};

/// The full card after one more unit is one step from the full card before it, by the unit's kind.
/// So a card that keeps what is armed agrees with the look-back, whether the history is legal or
/// not.
pub fn one_more_unit()
    ensures step { (h : History) (u : CardUnit)
        → full_of (with_unit h u) ≡ step_full (full_of h) u }
{}

/// A legal history leaves a valid full card.
pub fn stays_valid()
    ensures valid { (h : History) → IsLegal h → IsValid (full_of h) }
{}

/// On the card of a legal history each eIM has the counter that the history keeps for it.
pub fn counters_look_back()
    ensures counted { (h : History) → IsLegal h → IsCounted h }
{}

/// A legal history that goes on never has an earlier full card again: each unit moves a number on
/// or shortens the pending list, and the next numbers never go back. So the two next numbers and
/// the count of pending results tell the card of a longer history apart.
pub fn never_returns()
    ensures differs { (start : FullCard) (u : CardUnit) (more us : List CardUnit)
        → IsLegalFrom start (u ∷ (more ++ us))
        → full_of (record { start = start; units = u ∷ (more ++ us) })
        ≢ full_of (record { start = start; units = us }) }
    ensures numbers { (start : FullCard) (u : CardUnit) (more us : List CardUnit)
        → IsLegalFrom start (u ∷ (more ++ us))
        → ¬ AreAlikeInNumbers (card_of (record { start = start; units = u ∷ (more ++ us) }))
        (card_of (record { start = start; units = us })) }
    ensures moves { (h : History) (u : CardUnit) → IsLegal h → May h u
        → Moves u (card_of h) (card_of (with_unit h u)) }
    ensures passed { (start : FullCard) (more us : List CardUnit) → IsLegalFrom start (more ++ us)
        → HasPassed (card_of (record { start = start; units = us }))
        (card_of (record { start = start; units = more ++ us })) }
{}

/// In a legal history the packages of each eIM and association are taken once, in rising counters.
pub fn takes_once()
    ensures once { (h : History) → IsLegal h → IsOnce h }
{}

/// The first units of a legal history are a legal history.
pub fn first_units_legal()
    ensures legal { (k : ℕ) (h : History) → IsLegal h → IsLegal (first_units k h) }
{}

/// A permitted rollback leaves the former profile enabled, and no other.
pub fn rollback_restores()
    ensures alone { (h : History) → IsLegal h → (armed : Armed) → former_of h ≡ Some armed
        → IsAlone armed.former (card_of (with_unit h rollback)).profiles }
{}

/// A card directly after its personalisation is valid.
pub fn fresh_is_valid()
    ensures valid { (eid : List ℕ) (profiles : List Profile) → IsEid eid → IsTable profiles
        → IsValid (fresh eid profiles) }
{}

/// What one more unit makes of the pending results, over every legal history: a load adds its
/// result last, a rollback takes out the armed one and puts it last, marked and under the next
/// number, a removal takes out the one that it names, and any other unit leaves them all.
pub fn pending_results_change()
    ensures load { (h : History) (p : Package) → IsLegal h → May h (load p)
        → IsAdded (result_of (card_of h) p) (card_of h).results
        (card_of (with_unit h (load p))).results }
    ensures rollback { (h : History) (armed : Armed) → IsLegal h → former_of h ≡ Some armed
        → IsRolledBack armed (card_of h).results (card_of (with_unit h rollback)).results }
    ensures remove { (h : History) (seq : ℕ) → IsLegal h → May h (remove seq)
        → IsRemoved seq (card_of h).results (card_of (with_unit h (remove seq))).results }
    ensures others { (h : History) (u : CardUnit) → IsLegal h → IsOther u
        → (card_of (with_unit h u)).results ≡ (card_of h).results }
{}

/// The test of a list's pairs passes exactly where each two of them may stand in one list.
pub fn pairs_are_tested()
    ensures profiles { (ps : List Profile) → (each_pair are_profiles_apart ps ≡ true)
        ↔ EveryPair AreApart ps }
    ensures lines { (es : List EimLine) → (each_pair are_lines_apart es ≡ true)
        ↔ EveryPair AreLinesApart es }
    ensures entries { (es : List EimEntry) → (each_pair are_entries_apart es ≡ true)
        ↔ EveryPair AreEntriesApart es }
    ensures results { (rs : List PackageResult) → (each_pair are_rising rs ≡ true)
        ↔ EveryPair IsBefore rs }
{}
