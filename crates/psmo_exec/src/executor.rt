ghost use Rattle.std.specs.Prelude.{◌≡◌, ◌++◌, ◌∷◌, [], None, if◌then◌else◌, OnOk, IfOk};
ghost use Rattle.small_card.specs.Cards.{EimList};
ghost use Rattle.small_card.specs.Packages.{execute};
ghost use Rattle.small_card.specs.Profiles.{enabled_of};
ghost use Rattle.small_card.specs.declared.types.Body.TheVariants.{Psmos};
ghost use Rattle.psmo_exec.specs.Flags.{IsRun};

use crate::operation::{armed_after, is_there, perform};
use iot_bytes::{NoMemory, Reserve, Row};
use profile_table::Table;
use sgp_values::Iccid;
use small_card::{Item, Psmo};
use std::alloc::Global;

/// What a package's operations on profiles leave: the table, an item for each operation that was
/// executed, and the profile that was enabled as the package began, where a rollback to it is
/// armed.
#[derive(Debug, Drop)]
pub struct PsmoDone {
    pub table: Table,
    pub items: Row<Item>,
    pub armed: Option<Iccid>,
}

// The items so far, and whether the former profile is armed.
#[derive(Debug, Drop)]
struct Executed {
    items: Row<Item>,
    armed: bool,
}

fn keep(items: &mut Row<Item>, item: Item) -> Result<(), NoMemory>
    ensures { OnOk result (items.new ≡ items.old ++ item ∷ []) }
{
    items.push(item).map_err(|_| NoMemory)
}

fn run_all(
    alloc: Global,
    former: &Option<Iccid>,
    table: &mut Table,
    ops: &[Psmo],
) -> Result<Executed, NoMemory>
    requires { former.now ≡ enabled_of table.old }
    ensures { IfOk result
        (λ end. IsRun former.now table.old ops.now table.new end.items end.armed) }
{
    let mut armed = false;
    let mut items = Reserve::with_room(alloc, ops.len())?.into_row();
    for op in ops {
        let there = is_there(former, table);
        let item = perform(alloc, former, armed, table, op)?;
        armed = armed_after(former, armed, there, op, &item);
        let done = item.is_done();
        keep(&mut items, item)?;
        if !done {
            return Ok(Executed { items, armed });
        }
    }
    Ok(Executed { items, armed })
}

fn armed_profile(former: Option<Iccid>, armed: bool) -> Option<Iccid>
    ensures { result ≡ (if armed then former else None) }
{
    if armed { former } else { None }
}

/// Executes a package's operations in order, until one isn't done.
///
/// # Errors
/// `NoMemory`, and the table is dropped, so hand in a copy of what must stay.
pub fn run(alloc: Global, mut table: Table, ops: &Row<Psmo>) -> Result<PsmoDone, NoMemory>
    ensures { IfOk result (λ done. (eims : EimList) → execute table eims (Psmos ops.now)
        ≡ record { profiles = done.table; eims = eims; items = done.items; armed = done.armed }) }
{
    let former = table.enabled();
    let Executed { items, armed } = run_all(alloc, &former, &mut table, ops.as_slice())?;
    let armed = armed_profile(former, armed);
    Ok(PsmoDone {
        table,
        items,
        armed,
    })
}
