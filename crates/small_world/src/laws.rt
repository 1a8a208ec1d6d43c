//! What holds of every run, as functions that do nothing: the clauses are the laws. They speak of
//! the worlds that runs come to: from a device in range, over lines that can be read, whatever was
//! lost, whatever a boot took, and in whatever order messages came.
ghost use Rattle.std.specs.Prelude.{◌≡◌, ◌≢◌, ◌≤◌, ◌↔◌, Bool, true, false, List, [], ◌∷◌, ℕ, Some};
ghost use Rattle.std.specs.Prelude.{None, Ok, Err, IsOk, IsErr, IfSome, codes, length, map};
ghost use Rattle.card_store.specs.Holding.{Mark};
ghost use Rattle.card_store.specs.Standing.{Stands};
ghost use Rattle.esipa_codec.specs.Ranges.{IsToEim, IsToIpa};
ghost use Rattle.iot_schedule.specs.Ranges.{IsDevice, IsStep};
ghost use Rattle.small_card.specs.Ranges.{IsCommand};
ghost use Rattle.iot_schedule.specs.declared.types.Device.{Device};
ghost use Rattle.iot_schedule.specs.declared.types.Line.{Line};
ghost use Rattle.modem_bank.specs.Modems.{Seen};
ghost use Rattle.package_codec.specs.Checks.{check, most_octets};
ghost use Rattle.package_codec.specs.Replies.{after};
ghost use Rattle.small_card.specs.Checks.{has_association};
ghost use Rattle.small_card.specs.Histories.{History, card_of, full_of, with_unit, kept};
ghost use Rattle.small_card.specs.Laws.{AreAlikeInNumbers};
ghost use Rattle.small_card.specs.Legal.{IsLegal, IsOnce, May};
ghost use Rattle.small_card.specs.Lists.{Every};
ghost use Rattle.small_card.specs.Units.{CardUnit, load};
ghost use Rattle.small_card.specs.declared.types.Command.{Command};
ghost use Rattle.small_card.specs.declared.types.Command.TheVariants as command;
ghost use Rattle.small_card.specs.declared.types.Package.{Package};
ghost use Rattle.small_card.specs.declared.types.PackageResult.{PackageResult};
ghost use Rattle.small_world.specs.Forms.{newest, forms, IsOne};
ghost use Rattle.small_world.specs.Growing.{HasMore};
ghost use Rattle.small_world.specs.Has.{Has};
ghost use Rattle.small_world.specs.Lines.{acted};
ghost use Rattle.small_world.specs.Lossless.{NoneLost, Made, AreApart};
ghost use Rattle.small_world.specs.Modems.{attached, enabled_lit, told_since};
ghost use Rattle.small_world.specs.Octets.{octets_sent};
ghost use Rattle.small_world.specs.Printing.{printed};
ghost use Rattle.small_world.specs.Runs.{Turn, given, is_boot, steps_card, MayTurn, after_turn};
ghost use Rattle.small_world.specs.Runs.{world_after, IsReached};
ghost use Rattle.small_world.specs.Stepping.{attempt, commanded, booted, IsSameCard};
ghost use Rattle.small_world.specs.Stretches.{fates, is_cut, stretches};
ghost use Rattle.small_world.specs.Taking.{Hands, SaysLoaded, Carries};
ghost use Rattle.small_world.specs.Worlds.{SmallWorld, enabled_after, start_world};

/// A run begins at the world of a device that was personalised, and goes on with any line that can
/// be read, whatever is lost or taken.
pub fn runs_go_on()
    ensures begins { (d : Device) (handed_in : List Seen) → IsDevice d
        → IsReached (start_world d handed_in) }
    ensures goes_on { (w : SmallWorld) (t : Turn) → IsReached w → IsStep t.line
        → IsReached (after_turn w t) }
{}

/// The history of every run is legal, so the packages of each eIM and association are taken once,
/// in rising counters. The unit that was in progress may happen next.
pub fn histories_are_legal()
    ensures legal { (w : SmallWorld) → IsReached w → IsLegal w.history }
    ensures once { (w : SmallWorld) → IsReached w → IsOnce w.history }
    ensures attempt { (w : SmallWorld) → IsReached w → IfSome (attempt w.marks) (May w.history) }
{}

/// A form's number is that of no other form, so an acknowledgement of a number names one form.
pub fn numbers_name_forms()
    ensures { (h : History) → IsLegal h → h.start.card.results.pending ≡ []
        → (r s : PackageResult) → Has r (forms h) → Has s (forms h) → r.seq ≡ s.seq → r ≡ s }
{}

/// Of the forms of one result the newest has the greatest number, and what is pending is the
/// newest.
pub fn newest_forms_lead()
    ensures lead { (h : History) → IsLegal h → h.start.card.results.pending ≡ []
        → (r s : PackageResult) → Has r (newest h) → Has s (forms h) → IsOne r s → s.seq ≤ r.seq }
    ensures pending { (h : History) → IsLegal h → h.start.card.results.pending ≡ []
        → Every (λ r. Has r (newest h)) (card_of h).results.pending }
{}

/// After any run no result is lost: that of each package that was taken is pending, or recorded in
/// its newest form by an eIM of its identifier. And each record is a form that its result had; no
/// two eIMs have one identifier.
pub fn no_result_is_lost()
    ensures lost { (w : SmallWorld) → IsReached w → NoneLost w.history w.eims }
    ensures made { (w : SmallWorld) → IsReached w → Made w.history w.eims }
    ensures apart { (w : SmallWorld) → IsReached w → AreApart w.eims }
{}

/// The newest mark is of the whole history, and nothing is in progress on a lit card. The stretches
/// of a run are as many as its marks.
pub fn marks_tell_the_history()
    ensures newest { (w : SmallWorld) (m : Mark) (older : List Mark) → IsReached w
        → w.marks ≡ m ∷ older
        → m.units ≡ length w.history.units }
    ensures rests { (w : SmallWorld) → IsReached w → w.lit ≡ true → attempt w.marks ≡ None }
    ensures stretches { (d : Device) (handed_in : List Seen) (ts : List Turn)
        → length (stretches (fates (start_world d handed_in) ts))
        ≡ length (world_after (start_world d handed_in) ts).marks }
{}

/// Whether a boot took the unit that was in progress is what the chip showed, and nothing else: the
/// two cards differ, also in their next numbers or their count of pending results, and no image of
/// a chip stands for both. A boot of a lit card changes no unit.
pub fn boots_show_one_card()
    ensures full { (w : SmallWorld) (u : CardUnit) → IsReached w → attempt w.marks ≡ Some u
        → full_of (with_unit w.history u) ≢ full_of w.history }
    ensures numbers { (w : SmallWorld) (u : CardUnit) → IsReached w → attempt w.marks ≡ Some u
        → ¬ AreAlikeInNumbers (card_of (with_unit w.history u)) (card_of w.history) }
    ensures image { (w : SmallWorld) (u : CardUnit) (image : List ℕ) → IsReached w
        → attempt w.marks ≡ Some u
        → Stands (full_of (with_unit w.history u)) image → ¬ Stands (full_of w.history) image }
    ensures lit { (w : SmallWorld) (lost taken : Bool) → IsReached w → w.lit ≡ true
        → (booted lost taken w).history ≡ w.history }
{}

/// Each line can be taken in each world, so no line ends a run. One that doesn't step the card
/// leaves no choice, and only a boot of a dark card takes what was in progress. A line prints
/// `lost` exactly where it is lost.
pub fn lines_leave_choices()
    ensures some { (w : SmallWorld) (l : Line) → (t : Turn) × (t.line ≡ l) × MayTurn w t }
    ensures none { (w : SmallWorld) (t : Turn) → MayTurn w t → steps_card w t.line ≡ false
        → (t.lost ≡ false) × (t.taken ≡ false) }
    ensures taken { (w : SmallWorld) (t : Turn) → MayTurn w t → t.taken ≡ true
        → (is_boot t.line ≡ true) × (w.lit ≡ false) × (t.lost ≡ false) }
    ensures lost { (w : SmallWorld) (t : Turn) → MayTurn w t
        → (printed w t.line t.lost ≡ codes "lost") ↔ (t.lost ≡ true) }
{}

/// A line does to the card what the command that it gives does. One that gives none, that is no
/// boot and plans no cut, leaves the card, its marks, its power and the plan. One that steps the
/// card ends the plan.
pub fn commands_reach_the_card()
    ensures command { (w : SmallWorld) (l : Line) (c : Command) (lost taken : Bool)
        → given w l ≡ Some c
        → IsSameCard (commanded c lost w) (acted l lost taken w) }
    ensures others { (w : SmallWorld) (l : Line) (lost taken : Bool) → given w l ≡ None
        → is_boot l ≡ false → is_cut l ≡ false
        → IsSameCard w (acted l lost taken w) }
    ensures plan { (w : SmallWorld) (l : Line) (lost taken : Bool) → steps_card w l ≡ true
        → (acted l lost taken w).plan ≡ None }
{}

/// Every message that was sent is in its ranges, and so is every command that a line gives to the
/// card.
pub fn messages_are_in_range()
    ensures up { (w : SmallWorld) → IsReached w → Every (λ p. IsToEim p.message) w.to_eims }
    ensures down { (w : SmallWorld) → IsReached w → Every (λ r. IsToIpa r.message) w.to_ipa }
    ensures commands { (w : SmallWorld) (l : Line) (c : Command) → IsReached w → IsStep l
        → given w l ≡ Some c → IsCommand c }
{}

/// A package that a line hands to a lit card prints `loaded`, where the line isn't lost, exactly
/// where the checks accept it; and it takes effect there. In a lost line it is the unit in progress
/// only where the checks accept it.
pub fn packages_are_taken_where_the_checks_accept()
    ensures says { (w : SmallWorld) (l : Line) (good : Bool) (bytes : List ℕ) → w.lit ≡ true
        → Hands w l good bytes
        → SaysLoaded (printed w l false) ↔ IsOk (check w.history good bytes) }
    ensures takes { (w : SmallWorld) (l : Line) (good taken : Bool) (bytes : List ℕ) → w.lit ≡ true
        → Hands w l good bytes
        → (acted l false taken w).history ≡ after w.history (command.Load good bytes) }
    ensures lost { (w : SmallWorld) (l : Line) (good taken : Bool) (bytes : List ℕ) (u : CardUnit)
        → w.lit ≡ true → Hands w l good bytes
        → attempt (acted l true taken w).marks ≡ Some u
        → (p : Package) × (u ≡ load p) × (check w.history good bytes ≡ Ok p) }
{}

/// A package that took effect, by its own line or by a boot that took it, is refused whenever it
/// comes again; as a replay where the verdict is good and its eIM's entry still has its
/// association.
pub fn redelivered_packages_are_refused()
    ensures taken { (w : SmallWorld) (u : CardUnit) → attempt w.marks ≡ Some u
        → Has u (booted false true w).history.units }
    ensures stays { (w : SmallWorld) (ts : List Turn) (u : CardUnit) → Has u w.history.units
        → Has u (world_after w ts).history.units }
    ensures refused { (h : History) (good : Bool) (bytes : List ℕ) (p : Package) → IsLegal h
        → Has (load p) h.units → Carries bytes p
        → IsErr (check h good bytes) }
    ensures replay { (h : History) (bytes : List ℕ) (p : Package) → IsLegal h → Has (load p) h.units
        → Carries bytes p
        → length bytes ≤ most_octets → has_association p.eim p.association (card_of h).eims.entries
        ≡ true
        → check h true bytes
        ≡ Err (record { code = 6; kept = kept h p.eim p.association; received = p.counter }) }
{}

/// What was sent stays in its place, so the octets of all messages never fall.
pub fn messages_stay_sent()
    ensures more { (w : SmallWorld) (t : Turn) → HasMore w (after_turn w t) }
    ensures octets { (w : SmallWorld) (t : Turn) → octets_sent w ≤ octets_sent (after_turn w t) }
{}

/// After a line that leaves the card lit each modem shows the enabled profile, or none where none
/// is enabled. What the modems show and count after a run is a function of those that were handed
/// in and are still attached, and of the enabled profiles after the lines that left the card lit.
pub fn modems_are_told_in_turn()
    ensures shown { (w : SmallWorld) → IsReached w → w.lit ≡ true
        → Every (λ m. m.0 ≡ enabled_after w.history) w.modems }
    ensures told { (d : Device) (handed_in : List Seen) (ts : List Turn)
        → (world_after (start_world d handed_in) ts).modems
        ≡ map (told_since (enabled_lit (start_world d handed_in) ts)) (attached handed_in ts) }
{}
