//! What holds of the replies to all commands, as functions that do nothing: the clauses are the
//! laws.
ghost use Rattle.std.specs.Prelude.{◌≡◌, ◌≢◌, ◌≤◌, ◌↔◌, ◌++◌, ◌∷◌, [], ℕ, Bool, List, length, Some};
ghost use Rattle.std.specs.List.{AllPass};
ghost use Rattle.sgp_values.specs.Ranges.{is_octet};
ghost use Rattle.small_card.specs.Histories.{History, card_of, with_unit};
ghost use Rattle.small_card.specs.Legal.{IsLegal, IsOnce, May};
ghost use Rattle.small_card.specs.Lists.{Every};
ghost use Rattle.small_card.specs.Packages.{result_of};
ghost use Rattle.small_card.specs.Ranges.{IsCommand, IsAnswer, IsSigned};
ghost use Rattle.small_card.specs.Units.{CardUnit, load};
ghost use Rattle.small_card.specs.declared.types.Command.{Command};
ghost use Rattle.small_card.specs.declared.types.Package.{Package};
ghost use Rattle.small_card.specs.declared.types.Signed.{Signed};
ghost use Rattle.package_codec.specs.Checks.{check, most_octets, IsRefusedWith};
ghost use Rattle.package_codec.specs.Replies.{reply, unit_of, grown, after, after_all};
ghost use Rattle.package_codec.specs.Spelling.{signed};

/// After a command in its ranges a legal history is legal, and so it is after any list of them.
pub fn histories_stay_legal()
    ensures one { (h : History) (c : Command) → IsLegal h → IsCommand c → IsLegal (after h c) }
    ensures all { (h : History) (cs : List Command) → IsLegal h → Every IsCommand cs
        → IsLegal (after_all h cs) }
{}

/// The unit of a command in its ranges may happen, and the history after the command has it.
pub fn units_may_happen()
    ensures may { (h : History) (c : Command) (u : CardUnit) → IsLegal h → IsCommand c
        → unit_of h c ≡ Some u → May h u }
    ensures grown { (h : History) (c : Command) → after h c ≡ grown (unit_of h c) h }
{}

/// With at most 4,096 octets a load is refused as malformed exactly where they spell no signed
/// package in its ranges.
pub fn malformed_loads_spell_nothing()
    ensures exact { (h : History) (good : Bool) (bytes : List ℕ) → AllPass is_octet bytes
        → length bytes ≤ most_octets
        → IsRefusedWith 1 (check h good bytes) ↔ ((s : Signed) → IsSigned s → bytes ≢ signed s) }
{}

/// Over every list of commands the packages of each eIM and association are taken once, in rising
/// counters.
pub fn counters_rise()
    ensures { (h : History) (cs : List Command) → IsLegal h → Every IsCommand cs
        → IsOnce (after_all h cs) }
{}

/// What a card replies is in the ranges of answers.
pub fn replies_are_in_range()
    ensures { (h : History) (c : Command) → IsLegal h → IsCommand c → IsAnswer (reply h c) }
{}

/// The result that answers an accepted package is the new last one that is pending.
pub fn results_go_last()
    ensures { (h : History) (p : Package) → (card_of (with_unit h (load p))).results.pending
        ≡ (card_of h).results.pending ++ result_of (card_of h) p ∷ [] }
{}
