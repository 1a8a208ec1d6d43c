ghost use Rattle.std.specs.Prelude.{◌≡◌, ◌++◌, length, take, map, OnOk, OnErr};
ghost use Rattle.std.specs.List.{flat_map};
ghost use Rattle.modem_bank.specs.Modems.{Seen, seen};
ghost use Rattle.small_world.specs.Texts.{shown_text, modem_entry, modems_text};
ghost use Rattle.world_text.specs.Putting.{PutsOne};

use iot_bytes::{NoMemory, Row, put_hex};
use modem_bank::Modem;
use sgp_values::Iccid;
use trace_text::put_number;

fn put_shown(out: &mut Row<u8>, shown: &Option<Iccid>) -> Result<(), NoMemory>
    ensures ok { OnOk result (out.new ≡ out.old ++ shown_text shown.now) }
    ensures err { OnErr result (take (length out.old) out.new ≡ out.old) }
{
    match shown {
        Some(iccid) => put_hex(out, iccid.octets()),
        None => out.append(b"-"),
    }
}

/// Appends what a modem shows, and how often it was refreshed, behind a space.
#[tactic(auto, using(iot_bytes::proofs::Appending::appended), unfolding(small_world::specs::Texts::modem_entry))]
pub fn put_modem(out: &mut Row<u8>, shown: &Option<Iccid>, count: u64) -> Result<(), NoMemory>
    ensures ok { OnOk result (out.new ≡ out.old ++ modem_entry (shown.now, count)) }
    ensures err { OnErr result (take (length out.old) out.new ≡ out.old) }
{
    out.append(b" ")?;
    put_shown(out, shown)?;
    put_number(out, b":", count)
}

fn put_entries<T, G: Fn(&mut Row<u8>, &T) -> Result<(), NoMemory>>(
    out: &mut Row<u8>,
    modems: &[T],
    put: G,
) -> Result<(), NoMemory>
    requires { G.IsAlwaysCallable put }
    ensures ok { (view : T → Seen) → PutsOne G.Fn put view
        → OnOk result (out.new ≡ out.old ++ flat_map modem_entry (map view modems.now)) }
    ensures err { (view : T → Seen) → PutsOne G.Fn put view
        → OnErr result (take (length out.old) out.new ≡ out.old) }
{
    for modem in modems {
        put(out, modem)?;
    }
    Ok(())
}

/// Appends each modem of a list, whatever its type, by a function that appends one.
///
/// It is [`put_modems`] for crates above that are generic in the list's type.
#[tactic(auto, using(iot_bytes::proofs::Appending::appended), unfolding(small_world::specs::Texts::modems_text))]
pub fn put_modems_by<T, G: Fn(&mut Row<u8>, &T) -> Result<(), NoMemory>>(
    out: &mut Row<u8>,
    modems: &[T],
    put: G,
) -> Result<(), NoMemory>
    requires { G.IsAlwaysCallable put }
    ensures ok { (view : T → Seen) → PutsOne G.Fn put view
        → OnOk result (out.new ≡ out.old ++ modems_text (map view modems.now)) }
    ensures err { (view : T → Seen) → PutsOne G.Fn put view
        → OnErr result (take (length out.old) out.new ≡ out.old) }
{
    out.append(b"modems")?;
    put_entries(out, modems, put)
}

/// Appends what each modem of a list shows, and how often it was refreshed.
pub fn put_modems(out: &mut Row<u8>, modems: &[Box<dyn Modem>]) -> Result<(), NoMemory>
    ensures ok { OnOk result (out.new
        ≡ out.old ++ modems_text (seen shown_iccid refresh_count modems.now)) }
    ensures err { OnErr result (take (length out.old) out.new ≡ out.old) }
{
    put_modems_by(
        out,
        modems,
        |out: &mut Row<u8>, modem: &Box<dyn Modem>| -> Result<(), NoMemory>
            ensures ok { OnOk result (out.new
                ≡ out.old ++ modem_entry (shown_iccid modem.now, refresh_count modem.now)) }
            ensures err { OnErr result (take (length out.old) out.new ≡ out.old) }
        { put_modem(out, &modem.shows(), modem.refreshes()) },
    )
}
