//! One operation, and what it tells of the package.

ghost use Rattle.std.specs.Prelude.{◌≡◌, ◌||◌, ◌&&◌, ℕ, List, Option, IfOk};
ghost use Rattle.small_card.specs.Profiles.{Done, arms, is_arming, has_armed, do_psmo};
ghost use Rattle.small_card.specs.declared.types.Psmo.TheVariants as psmo;
ghost use Rattle.small_card.specs.declared.types.Item.TheVariants as item;
ghost use Rattle.psmo_exec.specs.Flags.{is_there, arms_now, is_kept};

use iot_bytes::NoMemory;
use profile_table::Table;
use sgp_values::Iccid;
use small_card::codes::{ARMED, DONE};
use small_card::{Item, Psmo};
use std::alloc::Global;

/// Whether the profile that was enabled as the package began is still in the table.
#[tactic(auto, unfolding(crate::specs::Flags::is_there))]
pub(crate) fn is_there(former: &Option<Iccid>, table: &Table) -> bool
    ensures { result ≡ is_there former.now table.now }
{
    match former {
        Some(former) => table.has(former),
        None => false,
    }
}

#[tactic(auto, unfolding(small_card::specs::Profiles::is_arming))]
fn is_arming(former: &Iccid, op: &Psmo, item: &Item) -> bool
    ensures { result ≡ is_arming former.now op.now item.now }
{
    match (op, item) {
        (Psmo::Enable { iccid, rollback }, Item::Enable(code)) => {
            *rollback && *code == DONE && !(*former == *iccid)
        }
        _ => false,
    }
}

// Whether this operation arms a rollback to the former profile, if that is still in the table.
#[tactic(auto, unfolding(crate::specs::Flags::arms_now))]
fn arms_now(former: &Option<Iccid>, op: &Psmo, item: &Item) -> bool
    ensures { result ≡ arms_now former.now op.now item.now }
{
    match former {
        Some(former) => is_arming(former, op, item),
        None => false,
    }
}

/// Whether a rollback to the former profile is armed after this operation, where `armed` tells
/// whether it was before and `there` whether that profile was in the table.
pub(crate) fn armed_after(
    former: &Option<Iccid>,
    armed: bool,
    there: bool,
    op: &Psmo,
    item: &Item,
) -> bool
    ensures { result ≡ armed || (there && arms_now former.now op.now item.now) }
{
    armed || there && arms_now(former, op, item)
}

// Whether a delete must leave this profile, since a rollback may give it back.
#[tactic(auto, unfolding(crate::specs::Flags::is_kept))]
fn is_kept(former: &Option<Iccid>, armed: bool, iccid: &Iccid) -> bool
    ensures { result ≡ is_kept former.now armed iccid.now }
{
    match former {
        Some(former) => *former == *iccid && armed,
        None => false,
    }
}

fn delete(table: &mut Table, iccid: &Iccid, kept: bool) -> u8
    ensures { (former : Option (List ℕ)) (done : List Done) → has_armed former done iccid.now ≡ kept
        → (table.new, item.Delete result) ≡ do_psmo former done table.old (psmo.Delete iccid.now) }
{
    if kept && table.has(iccid) && !table.is_enabled(iccid) {
        return ARMED;
    }
    table.delete(iccid)
}

/// Performs an operation, where `armed` tells whether the operations so far armed a rollback to the
/// former profile.
pub(crate) fn perform(
    alloc: Global,
    former: &Option<Iccid>,
    armed: bool,
    table: &mut Table,
    op: &Psmo,
) -> Result<Item, NoMemory>
    ensures { IfOk result (λ it. (done : List Done) → arms former.now done ≡ armed
        → (table.new, it) ≡ do_psmo former.now done table.old op.now) }
{
    match op {
        Psmo::Enable { iccid, rollback: _ } => Ok(Item::Enable(table.enable(iccid))),
        Psmo::Disable { iccid } => Ok(Item::Disable(table.disable(iccid))),
        Psmo::Delete { iccid } => {
            let kept = is_kept(former, armed, iccid);
            Ok(Item::Delete(delete(table, iccid, kept)))
        }
        Psmo::List => Ok(Item::Profiles(table.list(alloc)?)),
    }
}
