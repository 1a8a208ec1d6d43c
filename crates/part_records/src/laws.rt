//! What holds of all records, as functions that do nothing: the clauses are the laws.

ghost use Rattle.std.specs.Prelude.{◌≤◌, length};
ghost use Rattle.sgp_fields.specs.Laws.{OneSpelling, ReadAgain, ReadsSpelled};
ghost use Rattle.part_records.specs.Ranges.{AreDeeds, IsEimInput, IsEimOutput, IsSaid};
ghost use Rattle.part_records.specs.Reading.{eim_input_at, ipa_input_at};
ghost use Rattle.part_records.specs.Spelling.{deeds, eim_input, eim_output, ipa_input, IsFramable};
ghost use Rattle.part_records.specs.declared.records.Deeds.{Deeds};
ghost use Rattle.part_records.specs.declared.records.EimOutput.{EimOutput};

/// What is read is the spelling of what was read, which is in range; and what is in range is read
/// again from its spelling.
pub fn inputs_are_read_back()
    ensures eim_taken { ReadsSpelled eim_input_at eim_input IsEimInput }
    ensures eim_again { ReadAgain eim_input_at eim_input IsEimInput }
    ensures ipa_taken { ReadsSpelled ipa_input_at ipa_input IsFramable }
    ensures ipa_again { ReadAgain ipa_input_at ipa_input IsFramable }
{}

/// What comes to a manager has one spelling, and no spelling is a proper prefix of another; the
/// same of what comes to an assistant.
pub fn inputs_have_one_spelling()
    ensures eim { OneSpelling eim_input IsEimInput }
    ensures ipa { OneSpelling ipa_input IsFramable }
{}

/// What a manager gives has at most 16,777,220 octets, and so has what an assistant does.
pub fn outputs_are_short()
    ensures eim { (x : EimOutput) → IsEimOutput x → length (eim_output x) ≤ 16777220 }
    ensures ipa { (x : Deeds) → AreDeeds x → length (deeds x) ≤ 16777220 }
{}

/// What a manager gives has one spelling, and no spelling is a proper prefix of another; the same
/// of what an assistant does.
pub fn outputs_have_one_spelling()
    ensures eim { OneSpelling eim_output IsEimOutput }
    ensures ipa { OneSpelling deeds IsSaid }
{}
