//! What holds of all signed packages and of all bodies, as functions that do nothing: the clauses
//! are the laws.
ghost use Rattle.std.specs.Prelude.{◌≤◌, length};
ghost use Rattle.small_card.specs.Ranges.{IsBody, IsSigned};
ghost use Rattle.small_card.specs.declared.types.Body.{Body};
ghost use Rattle.small_card.specs.declared.types.Signed.{Signed};
ghost use Rattle.sgp_fields.specs.Laws.{OneSpelling, ReadAgain, ReadsSpelled};
ghost use Rattle.package_codec.specs.Reading.{body_at, signed_at};
ghost use Rattle.package_codec.specs.Spelling.{body, signed};

/// What is read as a signed package is the spelling of that package, which is in range; and a
/// package in range is read again from its spelling.
pub fn packages_are_read_back()
    ensures taken { ReadsSpelled signed_at signed IsSigned }
    ensures again { ReadAgain signed_at signed IsSigned }
{}

/// Two signed packages in range with one spelling are the same, and no spelling is a proper prefix
/// of another.
pub fn packages_have_one_spelling()
    ensures { OneSpelling signed IsSigned }
{}

/// A signed package in range has at most 3,485 octets.
pub fn packages_are_short()
    ensures { (s : Signed) → IsSigned s → length (signed s) ≤ 3485 }
{}

/// What is read as a body is the spelling of that body, which is in range; and a body in range is
/// read again from its spelling.
pub fn bodies_are_read_back()
    ensures taken { ReadsSpelled body_at body IsBody }
    ensures again { ReadAgain body_at body IsBody }
{}

/// Two bodies in range with one spelling are the same, and no spelling is a proper prefix of
/// another.
pub fn bodies_have_one_spelling()
    ensures { OneSpelling body IsBody }
{}
