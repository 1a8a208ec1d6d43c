ghost use Rattle.std.specs.Prelude.{◌≡◌, ◌<◌, ◌≤◌, ◌↔◌, ℕ, List, map, length, slice_index_or, true};
ghost use Rattle.std.specs.Prelude.{Option};
ghost use Rattle.modem_bank.specs.Modems.{Seen, seen, is_shown, told_one, told, without};
ghost use Rattle.modem_bank.specs.Modems.{KeepsShowing};
ghost use Rattle.modem_bank.specs.Telling.{TellsOne, KeepsOne};

use crate::modem::Modem;
use sgp_values::Iccid;

/// What the modem at a place shows.
pub fn shows(modems: &[Box<dyn Modem>], at: usize) -> Option<Iccid>
    requires { at < length modems.now }
    ensures { (m : _) → result ≡ shown_iccid (slice_index_or modems.now at m) }
{
    modems[at].shows()
}

/// How often the modem at a place was refreshed.
pub fn refreshes(modems: &[Box<dyn Modem>], at: usize) -> u64
    requires { at < length modems.now }
    ensures { (m : _) → result ≡ refresh_count (slice_index_or modems.now at m) }
{
    modems[at].refreshes()
}

/// Refreshes a modem that shows something else. It takes no memory.
pub fn tell_one(modem: &mut dyn Modem, now: &Option<Iccid>)
    ensures seen { (shown_iccid modem.new, refresh_count modem.new)
        ≡ told_one now.now (shown_iccid modem.old, refresh_count modem.old) }
    ensures kept { is_shown (shown_iccid modem.old) now.now ≡ true → modem.new ≡ modem.old }
{
    if modem.shows() != *now {
        modem.refresh(*now);
    }
}

/// Tells each entry of a list, whatever its type, by a function that tells one.
///
/// It is [`tell`] for crates above: no function that is lent a list of boxes may call one of
/// another crate that is lent it too, so the caller hands in [`tell_one`] as a closure of its own.
pub fn tell_each<T, F: Fn(&mut T, &Option<Iccid>)>(modems: &mut Vec<T>, now: Option<Iccid>, one: F)
    requires { F.IsAlwaysCallable one }
    ensures seen { (view : T → Seen) → TellsOne F.Fn one view
        → map view modems.new.items ≡ told now (map view modems.old.items) }
    ensures kept { (shown : T → Option (List ℕ)) → KeepsOne F.Fn one shown
        → KeepsShowing shown now modems.old.items modems.new.items }
{
    for modem in modems.iter_mut() {
        one(modem, &now);
    }
}

/// What [`detach`] did.
#[derive(Clone, Copy, Debug, PartialEq, Eq)]
pub enum DetachEnd {
    /// The modem was taken out and dropped.
    Dropped,
    /// The list has no such place, and stays.
    NoSuch,
}

/// Takes out the entry at a place of a list, whatever its type, and drops it.
///
/// It is [`detach`] for crates above, as [`tell_each`] is [`tell`]. It takes no memory.
pub fn detach_at<T: Drop>(modems: &mut Vec<T>, at: usize) -> DetachEnd
    ensures no_such { (result ≡ DetachEnd.NoSuch) ↔ (length modems.old.items ≤ at) }
    ensures left { modems.new.items ≡ without at modems.old.items }
{
    if at >= modems.len() {
        return DetachEnd::NoSuch;
    }
    drop(modems.remove(at));
    DetachEnd::Dropped
}

/// Refreshes each modem that shows something else than `now`, and no other. It takes no memory.
pub fn tell(modems: &mut Vec<Box<dyn Modem>>, now: Option<Iccid>)
    ensures seen { seen shown_iccid refresh_count modems.new.items
        ≡ told now (seen shown_iccid refresh_count modems.old.items) }
    ensures kept { KeepsShowing shown_iccid now modems.old.items modems.new.items }
{
    tell_each(
        modems,
        now,
        |modem: &mut Box<dyn Modem>, now: &Option<Iccid>|
            ensures seen { (shown_iccid modem.new, refresh_count modem.new)
                ≡ told_one now.now (shown_iccid modem.old, refresh_count modem.old) }
            ensures kept { is_shown (shown_iccid modem.old) now.now ≡ true → modem.new ≡ modem.old }
        { tell_one(&mut **modem, now) },
    );
}

/// Takes out the modem at a place, from 0, and drops it; the later ones close up. It takes no
/// memory.
pub fn detach(modems: &mut Vec<Box<dyn Modem>>, at: usize) -> DetachEnd
    ensures no_such { (result ≡ DetachEnd.NoSuch) ↔ (length modems.old.items ≤ at) }
    ensures left { modems.new.items ≡ without at modems.old.items }
    ensures seen { seen shown_iccid refresh_count modems.new.items
        ≡ without at (seen shown_iccid refresh_count modems.old.items) }
{
    detach_at(modems, at)
}
