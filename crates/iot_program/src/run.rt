//! The top call.

ghost use Rattle.std.specs.Prelude.{◌≡◌, ◌≢◌, ◌↔◌, ◌⊎◌, ◌++◌, ℕ, List, map, string_bytes, Some};
ghost use Rattle.std.specs.Prelude.{None, OnErr, OnOk, length, take, true};
ghost use Rattle.modem_bank.specs.Modems.{seen, told_one};
ghost use Rattle.small_world.specs.Texts.{modem_entry};
ghost use Rattle.iot_bytes.specs.Causes.{Rose};
ghost use Rattle.run_loop.specs.Edges.{edge, HasCauses};
ghost use Rattle.run_loop.specs.Frames.{framed};
ghost use Rattle.iot_program.specs.Words.{form_of, IsForm};
ghost use Rattle.iot_program.specs.Ends.{DecidesBy, Does, HandledBy, ReadsNothing};
ghost use Rattle.iot_program.specs.Ends.{ReplaysBy, StepsWorld, StopsBy};
ghost use Rattle.lone_card.specs.Runs.{HasFaults};
ghost use Rattle.iot_program.specs.declared.words.Form.{Form};

use crate::words::{Form, form_of_words};
use chip_port::Bench;
use iot_bytes::{NoMemory, Row, Sink, Source};
use lone_card::run_card;
use lone_parts::{run_eim, run_ipa};
use modem_bank::{Modem, tell_one};
use schedule_forms::{run_check, run_gen};
use sgp_values::Iccid;
use std::alloc::Global;
use world_forms::{run_demo, run_replay};
use world_text::put_modem;

/// The status of a faulty command line.
pub const FAULTY_WORDS: u8 = 1;

// Does what a form of words asks for.
fn run_form<S: Source, K: Sink, B: Bench>(
    alloc: Global,
    form: Form,
    source: &mut S,
    sink: &mut K,
    bench: &mut B,
    modems: &mut Vec<Box<dyn Modem>>,
) -> u8
    requires { IsForm form }
    ensures does { Does (Some form) result
        (edge (S.rest source.old) (S.faults source.old) (K.sent sink.old) (K.faults sink.old))
        (edge (S.rest source.new) (S.faults source.new) (K.sent sink.new) (K.faults sink.new))
        (B.sees bench.old) (B.sees bench.new)
        (seen shown_iccid refresh_count modems.old.items)
        (seen shown_iccid refresh_count modems.new.items) }
    ensures own { result ≢ 1 }
    ensures causes { HasCauses
        (edge (S.rest source.old) (S.faults source.old) (K.sent sink.old) (K.faults sink.old))
        (edge (S.rest source.new) (S.faults source.new) (K.sent sink.new) (K.faults sink.new))
        (result ≡ 2) (result ≡ 3) }
    ensures faults { form ≡ Form.Card
        → HasFaults (B.sees bench.old) (B.sees bench.new) (result ≡ 4) }
    ensures broke { StepsWorld (Some form) → result ≡ 4
        → Rose (B.sees bench.old).faults (B.sees bench.new).faults }
    ensures untouched_bench { form ≢ Form.Card → ¬ StepsWorld (Some form)
        → bench.new ≡ bench.old }
    ensures untouched_modems { ¬ StepsWorld (Some form) → modems.new ≡ modems.old }
    ensures complete { (input : List ℕ) (fs : List (List ℕ))
        → S.rest source.old ≡ Some input → input ≡ framed fs → HandledBy form (B.sees bench.old) fs
        → ¬ Rose (S.faults source.old) (S.faults source.new)
        → ¬ Rose (K.faults sink.old) (K.faults sink.new)
        → ¬ Rose (B.sees bench.old).faults (B.sees bench.new).faults
        → (result ≡ 0) ⊎ (result ≡ 6) }
    ensures stops { (input : List ℕ) (fs : List (List ℕ)) (tail : List ℕ)
        → S.rest source.old ≡ Some input → input ≡ framed fs ++ tail
        → HandledBy form (B.sees bench.old) fs
        → ¬ Rose (S.faults source.old) (S.faults source.new)
        → ¬ Rose (K.faults sink.old) (K.faults sink.new)
        → ¬ Rose (B.sees bench.old).faults (B.sees bench.new).faults
        → StopsBy form (B.sees bench.old) fs tail result }
    ensures checks { (input : List ℕ) → form ≡ Form.Check → S.rest source.old ≡ Some input
        → DecidesBy input result
        (edge (S.rest source.old) (S.faults source.old) (K.sent sink.old) (K.faults sink.old))
        (edge (S.rest source.new) (S.faults source.new) (K.sent sink.new) (K.faults sink.new)) }
    ensures replays { (input : List ℕ) → form ≡ Form.Replay → (B.sees bench.old).told ≡ true
        → S.rest source.old ≡ Some input
        → ReplaysBy (seen shown_iccid refresh_count modems.old.items) input result
        (edge (S.rest source.old) (S.faults source.old) (K.sent sink.old) (K.faults sink.old))
        (edge (S.rest source.new) (S.faults source.new) (K.sent sink.new) (K.faults sink.new))
        (B.sees bench.old) (B.sees bench.new)
        (seen shown_iccid refresh_count modems.new.items) }
    ensures unread { ReadsNothing (Some form) → source.new ≡ source.old }
{
    let tell = |modem: &mut Box<dyn Modem>, now: &Option<Iccid>|
        ensures seen { (shown_iccid modem.new, refresh_count modem.new)
            ≡ told_one now.now (shown_iccid modem.old, refresh_count modem.old) }
    { tell_one(&mut **modem, now) };
    let put = |out: &mut Row<u8>, modem: &Box<dyn Modem>| -> Result<(), NoMemory>
        ensures ok { OnOk result (out.new
            ≡ out.old ++ modem_entry (shown_iccid modem.now, refresh_count modem.now)) }
        ensures err { OnErr result (take (length out.old) out.new ≡ out.old) }
    { put_modem(out, &modem.shows(), modem.refreshes()) };
    match form {
        Form::Card => run_card(alloc, source, sink, bench),
        Form::Eim { id, eid } => run_eim(alloc, id, eid, source, sink),
        Form::Ipa { eid } => run_ipa(alloc, eid, source, sink),
        Form::Check => run_check(alloc, source, sink),
        Form::Gen { start, lines } => run_gen(alloc, start, lines, sink),
        Form::Replay => run_replay(alloc, source, sink, bench, modems, tell, put),
        Form::Demo { start, lines } => {
            run_demo(alloc, start, lines, sink, bench, modems, tell, put)
        }
    }
}

/// Does what the words ask for, over a source, a sink, a bench and a list of modems, and gives the
/// exit status.
pub fn run<S: Source, K: Sink, B: Bench>(
    alloc: Global,
    words: &[String],
    source: &mut S,
    sink: &mut K,
    bench: &mut B,
    modems: &mut Vec<Box<dyn Modem>>,
) -> u8
    // What was read and sent, by the form of the words and the status.
    ensures does { Does (form_of (map string_bytes words.now)) result
        (edge (S.rest source.old) (S.faults source.old) (K.sent sink.old) (K.faults sink.old))
        (edge (S.rest source.new) (S.faults source.new) (K.sent sink.new) (K.faults sink.new))
        (B.sees bench.old) (B.sees bench.new)
        (seen shown_iccid refresh_count modems.old.items)
        (seen shown_iccid refresh_count modems.new.items) }
    // Status 1 comes exactly where the words have no form, and then nothing was read or written.
    ensures faulty_words { (result ≡ 1) ↔ (form_of (map string_bytes words.now) ≡ None) }
    ensures untouched_source { result ≡ 1 → source.new ≡ source.old }
    ensures untouched_sink { result ≡ 1 → sink.new ≡ sink.old }
    // Statuses 2 and 3 come only where a call on the source or on the sink failed.
    ensures causes { HasCauses
        (edge (S.rest source.old) (S.faults source.old) (K.sent sink.old) (K.faults sink.old))
        (edge (S.rest source.new) (S.faults source.new) (K.sent sink.new) (K.faults sink.new))
        (result ≡ 2) (result ≡ 3) }
    // With `card`, `replay` and `demo` status 4 comes only where a call on the bench failed; no
    // other form makes any.
    ensures faults { form_of (map string_bytes words.now) ≡ Some Form.Card
        → HasFaults (B.sees bench.old) (B.sees bench.new) (result ≡ 4) }
    ensures broke { StepsWorld (form_of (map string_bytes words.now)) → result ≡ 4
        → Rose (B.sees bench.old).faults (B.sees bench.new).faults }
    ensures untouched_bench { form_of (map string_bytes words.now) ≢ Some Form.Card
        → ¬ StepsWorld (form_of (map string_bytes words.now)) → bench.new ≡ bench.old }
    // Only `replay` and `demo` tell the modems anything.
    ensures untouched_modems { ¬ StepsWorld (form_of (map string_bytes words.now))
        → modems.new ≡ modems.old }
    // Whole frames within the limits that the form handles are answered to their end where no call
    // on the source, the sink or the bench fails and memory suffices: of `card` the bench stands
    // for a card or the first one makes it, and of `eim` and `ipa` each is in the grammar.
    ensures complete { (form : Form) (input : List ℕ) (fs : List (List ℕ))
        → form_of (map string_bytes words.now) ≡ Some form
        → S.rest source.old ≡ Some input → input ≡ framed fs → HandledBy form (B.sees bench.old) fs
        → ¬ Rose (S.faults source.old) (S.faults source.new)
        → ¬ Rose (K.faults sink.old) (K.faults sink.new)
        → ¬ Rose (B.sees bench.old).faults (B.sees bench.new).faults
        → (result ≡ 0) ⊎ (result ≡ 6) }
    // An input that stops behind such frames ends the run with the status of its reason: torn, past
    // a limit, of `card` a first frame that doesn't make a card, and of `eim` and `ipa` a
    // frame outside the grammar.
    ensures stops { (form : Form) (input : List ℕ) (fs : List (List ℕ)) (tail : List ℕ)
        → form_of (map string_bytes words.now) ≡ Some form
        → S.rest source.old ≡ Some input → input ≡ framed fs ++ tail
        → HandledBy form (B.sees bench.old) fs
        → ¬ Rose (S.faults source.old) (S.faults source.new)
        → ¬ Rose (K.faults sink.old) (K.faults sink.new)
        → ¬ Rose (B.sees bench.old).faults (B.sees bench.new).faults
        → StopsBy form (B.sees bench.old) fs tail result }
    // Of `check`, the lines of an input that is told decide the status and what is sent.
    ensures checks { (input : List ℕ) → form_of (map string_bytes words.now) ≡ Some Form.Check
        → S.rest source.old ≡ Some input → DecidesBy input result
        (edge (S.rest source.old) (S.faults source.old) (K.sent sink.old) (K.faults sink.old))
        (edge (S.rest source.new) (S.faults source.new) (K.sent sink.new) (K.faults sink.new)) }
    // Of `replay` they do, over a bench that tells its content.
    ensures replays { (input : List ℕ) → form_of (map string_bytes words.now) ≡ Some Form.Replay
        → (B.sees bench.old).told ≡ true → S.rest source.old ≡ Some input
        → ReplaysBy (seen shown_iccid refresh_count modems.old.items) input result
        (edge (S.rest source.old) (S.faults source.old) (K.sent sink.old) (K.faults sink.old))
        (edge (S.rest source.new) (S.faults source.new) (K.sent sink.new) (K.faults sink.new))
        (B.sees bench.old) (B.sees bench.new)
        (seen shown_iccid refresh_count modems.new.items) }
    // `gen` and `demo` read nothing, nor do faulty words.
    ensures unread { ReadsNothing (form_of (map string_bytes words.now))
        → source.new ≡ source.old }
{
    match form_of_words(words) {
        Some(form) => run_form(alloc, form, source, sink, bench, modems),
        None => FAULTY_WORDS,
    }
}
