ghost use Rattle.std.specs.Prelude.{◌≡◌, ◌<◌, List, Option, Some, None, Contains};
ghost use Rattle.small_card.specs.Cards.{Results};
ghost use Rattle.small_card.specs.Lists.{Every};
ghost use Rattle.small_card.specs.Ranges.{IsResult};
ghost use Rattle.small_card.specs.Valid.{AreResults};
ghost use Rattle.small_card.specs.declared.types.PackageResult.{PackageResult};
ghost use Rattle.result_store.specs.Calls.{Call, May, after_calls, stands, IsUntouched};
ghost use Rattle.result_store.specs.Laws.{IsSameResult, WasRemoved, ComesFrom, NumbersRise};
ghost use Rattle.result_store.specs.Stores.{IsStore};

/// A result stays pending with its content until a removal of its number; a mark changes nothing of
/// it but the mark and its number.
pub fn kept_until_removed()
    ensures stays { (rs : Results) (cs : List Call) (r q : PackageResult) → Contains rs.pending r
        → stands rs cs (Some r) ≡ Some q → Contains (after_calls rs cs).pending q }
    ensures same { (rs : Results) (cs : List Call) (r q : PackageResult) → r.seq < rs.next
        → stands rs cs (Some r) ≡ Some q → IsSameResult r q }
    ensures untouched { (rs : Results) (cs : List Call) (r : PackageResult)
        → Every (IsUntouched r.seq) cs
        → stands rs cs (Some r) ≡ Some r }
    ensures removed { (rs : Results) (cs : List Call) (r : PackageResult)
        → stands rs cs (Some r) ≡ None → WasRemoved rs cs r }
    ensures only { (rs : Results) (cs : List Call) (q : PackageResult)
        → Contains (after_calls rs cs).pending q → ComesFrom rs cs q }
{}

/// Numbers that are given out only rise, and each is new.
pub fn numbers_rise()
    ensures { (rs : Results) (cs : List Call) → NumbersRise rs cs }
{}

/// The results of a valid card are those that stand in a store and are in their ranges.
pub fn results_stand()
    ensures stand { (rs : Results) → AreResults rs → IsStore rs }
    ensures ranges { (rs : Results) → AreResults rs → Every IsResult rs.pending }
    ensures valid { (rs : Results) → IsStore rs → Every IsResult rs.pending → AreResults rs }
{}

/// Any calls whose conditions hold leave at most 8 results in rising numbers that were given out.
pub fn stays_a_store()
    ensures { (rs : Results) (cs : List Call) → IsStore rs → May rs cs
        → IsStore (after_calls rs cs) }
{}
