//! What holds of all records, as functions that do nothing: the clauses are the laws.

ghost use Rattle.std.specs.Prelude.{◌≡◌, ◌≤◌, ℕ, length};
ghost use Rattle.sgp_fields.specs.Laws.{ReadsSpelled, ReadAgain, OneSpelling};
ghost use Rattle.small_card.specs.Ranges.{IsAnswer};
ghost use Rattle.small_card.specs.declared.types.Answer.{Answer};
ghost use Rattle.es10_codec.specs.Laws.{StopsSplit};
ghost use Rattle.es10_codec.specs.Reading.{command_at, answer_at};
ghost use Rattle.es10_codec.specs.Spelling.{command, IsSpellable, answer, stopped};

/// What is read as a command is the spelling of that command, whose values are in range and whose
/// elements are short enough; and such a command is read again from its spelling.
pub fn commands_are_read_back()
    ensures taken { ReadsSpelled command_at command IsSpellable }
    ensures again { ReadAgain command_at command IsSpellable }
{}

/// A command has one spelling, and no spelling is a proper prefix of another.
pub fn commands_have_one_spelling()
    ensures { OneSpelling command IsSpellable }
{}

/// What is read as an answer is the spelling of that answer, whose values are in range; and an
/// answer in range is read again from its spelling.
pub fn answers_are_read_back()
    ensures taken { ReadsSpelled answer_at answer IsAnswer }
    ensures again { ReadAgain answer_at answer IsAnswer }
{}

/// An answer has one spelling, and no spelling is a proper prefix of another.
pub fn answers_have_one_spelling()
    ensures { OneSpelling answer IsAnswer }
{}

/// An answer in range has at most 146,477 octets, so it fits a frame.
pub fn answers_are_short()
    ensures { (a : Answer) → IsAnswer a → length (answer a) ≤ 146477 }
{}

/// A stop record has one spelling, no spelling is a proper prefix of another, and none is that of
/// an answer.
pub fn stop_records_have_one_spelling()
    ensures split { StopsSplit }
    ensures apart { (a : Answer) (status number : ℕ) → answer a ≡ stopped status number → ⊥ }
{}
