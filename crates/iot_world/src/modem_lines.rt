//! The lines of the modems, and what modems are told at the end of each line.

ghost use Rattle.std.specs.Prelude.{◌≡◌, ℕ, List, Option, false, map};
ghost use Rattle.iot_schedule.specs.declared.types.Line.TheVariants as line;
ghost use Rattle.modem_bank.specs.Modems.{Seen};
ghost use Rattle.modem_bank.specs.Telling.{KeepsOne, TellsOne};
ghost use Rattle.small_world.specs.Modems.{without_taken};
ghost use Rattle.small_world.specs.Worlds.{SmallWorld};
ghost use Rattle.world_text.specs.Putting.{PutsOne};
ghost use Rattle.iot_world.specs.Asking.{Says};
ghost use Rattle.iot_world.specs.Turns.{KeepsBy, told_by};
ghost use Rattle.small_world.specs.Printing.{printed};

use crate::asking::put_word;
use crate::ends::{Halt, halting};
use iot_bytes::{NoMemory, Row};
use modem_bank::{DetachEnd, detach_at, tell_each};
use sgp_values::Iccid;
use world_card::BenchCard;
use world_text::put_modems_by;

/// The modem at a place is taken away.
pub(crate) fn detach<T: Drop>(modems: &mut Vec<T>, at: u32, out: &mut Row<u8>) -> Result<(), Halt>
    ensures left { modems.new.items ≡ without_taken (line.Detach at) modems.old.items }
    ensures says { (w : SmallWorld) (view : T → Seen) → map view modems.old.items ≡ w.modems
        → Says (printed w (line.Detach at) false) out.old out.new result }
{
    match detach_at(modems, at as usize) {
        DetachEnd::Dropped => put_word(out, b"detached"),
        DetachEnd::NoSuch => put_word(out, b"no such"),
    }
}

/// What each modem shows and counts is printed.
pub(crate) fn print<T, G: Fn(&mut Row<u8>, &T) -> Result<(), NoMemory>>(
    modems: &[T],
    put: G,
    out: &mut Row<u8>,
) -> Result<(), Halt>
    requires { G.IsAlwaysCallable put }
    ensures { (w : SmallWorld) (view : T → Seen) → PutsOne G.Fn put view
        → map view modems.now ≡ w.modems
        → Says (printed w line.Modems false) out.old out.new result }
{
    halting(put_modems_by(out, modems, put))
}

/// Each modem is told the enabled profile by a lit card, and by a dark one nothing.
pub(crate) fn attend<T, F: Fn(&mut T, &Option<Iccid>)>(
    card: &BenchCard,
    modems: &mut Vec<T>,
    tell: F,
)
    requires { F.IsAlwaysCallable tell }
    ensures told { (view : T → Seen) → TellsOne F.Fn tell view
        → map view modems.new.items ≡ told_by card.now (map view modems.old.items) }
    ensures kept { (shown : T → Option (List ℕ)) → KeepsOne F.Fn tell shown
        → KeepsBy shown card.now modems.old.items modems.new.items }
{
    if let Some(held) = card.card() {
        tell_each(modems, held.profiles.enabled(), tell);
    }
}
