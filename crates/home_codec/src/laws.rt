//! What holds of all homes, as functions that do nothing: the clauses are the laws.

ghost use Rattle.std.specs.Prelude.{◌≡◌, ◌≤◌, ◌<◌, ◌∷◌, ◌++◌, [], ℕ, Bool, List, Option, Some};
ghost use Rattle.std.specs.Prelude.{None, length, take, slice_get, slice_set, filter};
ghost use Rattle.sgp_fields.specs.Laws.{AreOctets};
ghost use Rattle.small_card.specs.Cards.{FullCard};
ghost use Rattle.small_card.specs.Lists.{Every, EveryPair, without};
ghost use Rattle.small_card.specs.Ranges.{IsBefore};
ghost use Rattle.small_card.specs.Units.{has_seq};
ghost use Rattle.small_card.specs.Valid.{IsValid};
ghost use Rattle.small_card.specs.declared.types.PackageResult.{PackageResult};
ghost use Rattle.home_codec.specs.Layout.{slot_front};
ghost use Rattle.home_codec.specs.Ordering.{somes, insert, in_order_on, in_order};
ghost use Rattle.home_codec.specs.Homes.{IsHomeOf, fields, home_of};
ghost use Rattle.home_codec.specs.Laying.{laid, slot_begin, HasPlaces, HasPending, IsOther};
ghost use Rattle.home_codec.specs.Reading.{card_at};

/// A home is that of at most one card.
pub fn homes_have_one_card()
    ensures { (home : List ℕ) (f g : FullCard) → IsHomeOf f home → IsHomeOf g home → f ≡ g }
{}

/// What is read as a card is its home, and every home of a card is read as it: as it is written, or
/// with the results in any slots.
pub fn homes_are_read_back()
    ensures taken { (home : List ℕ) (f : FullCard) → AreOctets home → card_at home ≡ Some f
        → IsHomeOf f home }
    ensures again { (home : List ℕ) (f : FullCard) → IsHomeOf f home → card_at home ≡ Some f }
    ensures written { (f : FullCard) → IsValid f → IsHomeOf f (home_of f) }
{}

/// Every home has 172,288 octets.
pub fn homes_are_whole()
    ensures { (home : List ℕ) (f : FullCard) → IsHomeOf f home → length home ≡ 172288 }
{}

/// One part of a home may be written alone. A slot that then begins with another result, or is
/// free, leaves the other places as they were; so do other fields in front of the slots. The fields
/// of a card and the places of its pending results make its home.
pub fn parts_are_laid()
    ensures places { (home : List ℕ) (f : FullCard) → IsHomeOf f home → HasPending f home }
    ensures slot { (places : List (Option PackageResult)) (home : List ℕ)
        (slot : ℕ) (place : Option PackageResult) → HasPlaces places home → slot < 8
        → length (slot_front place) ≤ 18313
        → HasPlaces (slice_set places slot place) (laid home (slot_begin slot) (slot_front place)) }
    ensures fields { (places : List (Option PackageResult)) (home octets : List ℕ)
        → HasPlaces places home → length octets ≡ 6400 → HasPlaces places (laid home 0 octets) }
    ensures home { (f : FullCard) (places : List (Option PackageResult)) (home : List ℕ)
        → IsValid f → take 6400 home ≡ fields f → HasPlaces places home
        → in_order (somes places) ≡ f.card.results.pending → IsHomeOf f home }
{}

/// A result that takes a free slot comes to the others in the order of its number, last where its
/// number is the highest, and one whose slot is made free leaves them in theirs. Which of the
/// results come first makes no difference.
pub fn places_change()
    ensures seated { (places : List (Option PackageResult)) (slot : ℕ) (r : PackageResult)
        → slice_get places slot ≡ Some None → IsOther r (somes places)
        → in_order (somes (slice_set places slot (Some r))) ≡ insert r (in_order (somes places)) }
    ensures last { (rs : List PackageResult) (r : PackageResult)
        → Every (λ s. IsBefore s r) rs → insert r rs ≡ rs ++ r ∷ [] }
    ensures freed { (places : List (Option PackageResult)) (slot : ℕ) (r : PackageResult)
        → slice_get places slot ≡ Some (Some r) → IsOther r (somes (slice_set places slot None))
        → in_order (somes (slice_set places slot None))
        ≡ without (has_seq r.seq) (in_order (somes places)) }
    ensures parted { (test : PackageResult → Bool) (rs : List PackageResult) → EveryPair IsBefore rs
        → in_order_on (filter test rs) (without test rs) ≡ rs }
{}
