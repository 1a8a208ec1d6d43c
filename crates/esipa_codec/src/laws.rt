//! What holds of every eIM and every assistant, as functions that do nothing: the clauses are the
//! laws.
ghost use Rattle.std.specs.Prelude.{◌≡◌, ◌≤◌, ◌<◌, ℕ, List, ◌∷◌, Some, length};
ghost use Rattle.sgp_fields.specs.Laws.{OneSpelling, ReadAgain, ReadsSpelled};
ghost use Rattle.small_card.specs.Lists.{EveryPair};
ghost use Rattle.small_card.specs.declared.types.PackageResult.{PackageResult};
ghost use Rattle.esipa_codec.specs.Assistant.{IpaEvent, strikes};
ghost use Rattle.esipa_codec.specs.Eims.{EimState, Order};
ghost use Rattle.esipa_codec.specs.Events.{EimEvent, after_event, after_events};
ghost use Rattle.esipa_codec.specs.Ranges.{IsToEim, IsToIpa};
ghost use Rattle.esipa_codec.specs.Reading.{to_eim_at, to_ipa_at};
ghost use Rattle.esipa_codec.specs.Records.{is_recorded, record_of};
ghost use Rattle.esipa_codec.specs.Spelling.{to_eim, to_ipa};
ghost use Rattle.esipa_codec.specs.declared.messages.ToEim.{ToEim};
ghost use Rattle.esipa_codec.specs.declared.messages.ToIpa.{ToIpa};

/// What was recorded stays recorded, by this result or by one with a greater sequence number.
pub fn records_stay()
    ensures stays { (x : EimEvent) (e : EimState) (association counter : ℕ) (r : PackageResult)
        → record_of association counter e.received ≡ Some r
        → (s : PackageResult) × (record_of association counter (after_event x e).received ≡ Some s)
        × (r.seq ≤ s.seq) }
{}

/// A result that comes late, with a number that isn't above that of the record, leaves the record:
/// a copy from before a rollback never replaces the result that the rollback marked.
pub fn late_copies_change_no_record()
    ensures late { (received : List PackageResult) (r s : PackageResult)
        → record_of r.association r.counter received ≡ Some s → r.seq ≤ s.seq
        → record_of r.association r.counter (r ∷ received) ≡ Some s }
{}

/// Whatever an eIM is bound to, and how often: each order has a counter above those of all earlier
/// orders of its association.
pub fn counters_never_return()
    ensures rise { (id eid : List ℕ) (events : List EimEvent)
        → EveryPair (λ earlier later. earlier.association ≡ later.association
        → earlier.counter < later.counter)
        (after_events id eid events).orders }
{}

/// There are at most two strikes: with the third failed probe they begin anew.
pub fn strikes_are_few()
    ensures few { (events : List IpaEvent) → strikes events ≤ 2 }
{}

/// What is read as a message is the spelling of that message, which is in range; and a message in
/// range is read again from its spelling.
pub fn messages_are_read_back()
    ensures up_taken { ReadsSpelled to_eim_at to_eim IsToEim }
    ensures up_again { ReadAgain to_eim_at to_eim IsToEim }
    ensures down_taken { ReadsSpelled to_ipa_at to_ipa IsToIpa }
    ensures down_again { ReadAgain to_ipa_at to_ipa IsToIpa }
{}

/// Two messages of one direction with one spelling are the same, and no spelling is a proper prefix
/// of another.
pub fn messages_have_one_spelling()
    ensures up { OneSpelling to_eim IsToEim }
    ensures down { OneSpelling to_ipa IsToIpa }
{}

/// A message to an eIM has at most 18,313 octets, and one to the assistant at most 16,777,220; one
/// that carries a signed package, which has at most 3,485, has at most 3,489.
pub fn messages_are_short()
    ensures up { (m : ToEim) → IsToEim m → length (to_eim m) ≤ 18313 }
    ensures down { (m : ToIpa) → IsToIpa m → length (to_ipa m) ≤ 16777220 }
    ensures signed { (bytes : List ℕ) → length bytes ≤ 3485
        → length (to_ipa (ToIpa.Package bytes)) ≤ 3489 }
{}
