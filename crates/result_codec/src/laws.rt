//! What holds of all results, their lists and refusals, as functions that do nothing: the clauses
//! are the laws.

ghost use Rattle.std.specs.Prelude.{◌≡◌, ◌≤◌, length};
ghost use Rattle.sgp_fields.specs.Laws.{ReadsSpelled, ReadAgain, OneSpelling};
ghost use Rattle.small_card.specs.Ranges.{IsTable, IsEimList, IsResult, IsRefused};
ghost use Rattle.small_card.specs.declared.types.PackageResult.{PackageResult};
ghost use Rattle.small_card.specs.declared.types.Refused.{Refused};
ghost use Rattle.result_codec.specs.Laws.{TablesAreOne, EimListsAreOne, RefusalsAreOne};
ghost use Rattle.result_codec.specs.Reading.{result_at, profiles_at, eim_lines_at, refusal_of};
ghost use Rattle.result_codec.specs.Spelling.{result as spelled, profiles, eim_lines, refusal};

/// What is read as a result is the spelling of that result, whose values are in range; and a result
/// in range is read again from its spelling.
pub fn results_are_read_back()
    ensures taken { ReadsSpelled result_at spelled IsResult }
    ensures again { ReadAgain result_at spelled IsResult }
{}

/// A result in range has one spelling, and no spelling is a proper prefix of another.
pub fn results_have_one_spelling()
    ensures { OneSpelling spelled IsResult }
{}

/// A result in range has at most 18,309 octets.
pub fn results_are_short()
    ensures { (r : PackageResult) → IsResult r → length (spelled r) ≤ 18309 }
{}

/// Tables and eIM lists in range are read again from their contents, and each content is that of
/// one.
pub fn lists_have_one_spelling()
    ensures table_again { ReadAgain profiles_at profiles IsTable }
    ensures table { TablesAreOne }
    ensures eim_list_again { ReadAgain eim_lines_at eim_lines IsEimList }
    ensures eim_list { EimListsAreOne }
{}

/// What is read as a refusal is the spelling of that refusal, whose values are in range; and a
/// refusal in range is read again from its spelling, which is of one refusal and at most 23 octets.
pub fn refusals_are_read_back()
    ensures taken { ReadsSpelled refusal_of refusal IsRefused }
    ensures again { ReadAgain refusal_of refusal IsRefused }
    ensures one { RefusalsAreOne }
    ensures few { (r : Refused) → IsRefused r → length (refusal r) ≤ 23 }
{}
