//! Laws of the definitions, as functions that do nothing: the clauses are the laws.

ghost use Rattle.std.specs.Prelude.{◌≡◌, ◌≢◌, ◌≤◌, ℕ, Bool, List, length, Some, None, Err};
ghost use Rattle.small_card.specs.Checks.{refused};
ghost use Rattle.small_card.specs.Histories.{History};
ghost use Rattle.small_card.specs.Legal.{IsLegal, IsOnce};
ghost use Rattle.small_card.specs.Lists.{Every};
ghost use Rattle.small_card.specs.Ranges.{IsCommand, IsSigned};
ghost use Rattle.small_card.specs.declared.types.Answer.TheVariants.{Malformed};
ghost use Rattle.small_card.specs.declared.types.Command.{Command};
ghost use Rattle.small_card.specs.declared.types.Signed.{Signed};
ghost use Rattle.package_codec.specs.Checks.{check, most_octets, package_refusal, unless_refused};
ghost use Rattle.package_codec.specs.Replies.{reply, after};
ghost use Rattle.package_codec.specs.Spelling.{signed};
ghost use Rattle.result_codec.specs.Laws.{AreOctets};
ghost use Rattle.es10_codec.specs.Spelling.{command, IsShort};
ghost use Rattle.lone_card.specs.Cards.{reply_to, after_frame, history_of};

/// Whatever frames are sent to no card, the history after them is legal. So each manager's packages
/// took effect once, in rising counters.
pub fn packages_take_effect_once()
    ensures legal { (fs : List (List ℕ)) (h : History) → Every AreOctets fs
        → history_of None fs ≡ Some h → IsLegal h }
    ensures once { (fs : List (List ℕ)) (h : History) → Every AreOctets fs
        → history_of None fs ≡ Some h → IsOnce h }
{}

/// The spelling of a command is answered as the card replies to the command, and octets that spell
/// none are answered [`Malformed`](small_card::Answer::Malformed) and change nothing.
pub fn commands_are_replied_to()
    ensures replied { (h : History) (c : Command) → IsCommand c → IsShort c
        → reply_to (Some h) (command c) ≡ Some (reply h c) }
    ensures carried_out { (h : History) (c : Command) → IsCommand c → IsShort c
        → after_frame (Some h) (command c) ≡ Some (after h c) }
    ensures malformed { (h : History) (octets : List ℕ) → AreOctets octets
        → ((c : Command) → IsCommand c → octets ≢ command c)
        → reply_to (Some h) octets ≡ Some Malformed }
    ensures ignored { (h : History) (octets : List ℕ) → AreOctets octets
        → ((c : Command) → IsCommand c → octets ≢ command c)
        → after_frame (Some h) octets ≡ Some h }
{}

/// The spelling of a signed package is checked as the package, and octets that spell none, if they
/// aren't too many, are refused with code 1.
pub fn packages_are_checked()
    ensures checked { (h : History) (good : Bool) (s : Signed) → IsSigned s
        → check h good (signed s)
        ≡ unless_refused (package_refusal h good s.«package») s.«package» }
    ensures malformed { (h : History) (good : Bool) (octets : List ℕ) → AreOctets octets
        → length octets ≤ most_octets → ((s : Signed) → IsSigned s → octets ≢ signed s)
        → check h good octets ≡ Err (refused 1) }
{}
