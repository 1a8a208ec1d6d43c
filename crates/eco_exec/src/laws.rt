ghost use Rattle.std.specs.Prelude.{List, [], flat_map};
ghost use Rattle.small_card.specs.Cards.{EimList};
ghost use Rattle.small_card.specs.Packages.{run_ecos};
ghost use Rattle.small_card.specs.declared.types.Eco.{Eco};
ghost use Rattle.eim_table.specs.Numbers.{given_by, AreNew};

/// Over any list of operations each association that a package's items tell is new: the next one at
/// the package's start or above it, and above all that the package gave out before. The next
/// association never falls.
pub fn packages_give_new_associations()
    ensures new { (ms : EimList) (ops : List Eco)
        → AreNew ms.next (run_ecos [] ms ops).0.next (flat_map given_by (run_ecos [] ms ops).1) }
{}
