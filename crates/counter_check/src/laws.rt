//! Laws of the checks, as functions that do nothing: the clauses are the laws.
ghost use Rattle.std.specs.Prelude.{◌≡◌, Bool, List, ℕ, Ok};
ghost use Rattle.std.specs.List.{AllPass};
ghost use Rattle.sgp_values.specs.Ranges.{is_octet};
ghost use Rattle.small_card.specs.Histories.{History};
ghost use Rattle.small_card.specs.declared.types.Package.{Package};
ghost use Rattle.package_codec.specs.Checks.{check};
ghost use Rattle.counter_check.specs.Loads.{IsAcceptable};

/// A load is accepted exactly where all checks pass and a result has room.
pub fn loads_are_accepted_exactly()
    ensures accepted { (h : History) (good : Bool) (bytes : List ℕ) (p : Package)
        → AllPass is_octet bytes → check h good bytes ≡ Ok p → IsAcceptable h good bytes p }
    ensures exact { (h : History) (good : Bool) (bytes : List ℕ) (p : Package)
        → IsAcceptable h good bytes p → check h good bytes ≡ Ok p }
{}
