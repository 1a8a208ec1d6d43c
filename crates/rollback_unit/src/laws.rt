ghost use Rattle.std.specs.Prelude.{◌≡◌, Some};
ghost use Rattle.small_card.specs.Cards.{FullCard};
ghost use Rattle.small_card.specs.Valid.{IsValid};
ghost use Rattle.small_card.specs.declared.types.Armed.{Armed};
ghost use Rattle.rollback_unit.specs.Rolls.{MayRoll};

/// What is armed on a valid card may be rolled back, so that a permitted rollback is never refused.
pub fn armed_may_roll()
    ensures { (f : FullCard) (a : Armed) → IsValid f → f.armed ≡ Some a
        → MayRoll f.card.profiles f.card.results a }
{}
