ghost use Rattle.std.specs.Prelude.{◌≡◌, [], None, IfOk};
ghost use Rattle.small_card.specs.EimOperations.{do_eco};
ghost use Rattle.small_card.specs.Packages.{run_ecos, execute};
ghost use Rattle.small_card.specs.declared.types.Body.TheVariants.{Ecos};
ghost use Rattle.small_card.specs.declared.types.Profile.{Profile};
ghost use Rattle.std.specs.Prelude.{List};
ghost use Rattle.eim_table.specs.Adding.{item_of};

use eim_table::{AddEnd, Eims};
use iot_bytes::{NoMemory, Reserve, Row};
use small_card::codes::DONE;
use small_card::{Eco, Item};
use std::alloc::Global;

/// What a package's operations on eIMs leave: the table, and an item for each operation that was
/// executed.
#[derive(Debug, Drop)]
pub struct EcoDone {
    pub eims: Eims,
    pub items: Row<Item>,
}

#[tactic(auto, unfolding(eim_table::specs::Adding::item_of))]
fn item_of(end: AddEnd) -> Item
    ensures { result ≡ item_of end }
{
    match end {
        AddEnd::Added(association) => Item::Add {
            code: DONE,
            association,
        },
        AddEnd::Refused(code) => Item::Add {
            code,
            association: 0,
        },
    }
}

fn do_eco(alloc: Global, eims: &mut Eims, op: &Eco) -> Result<Item, NoMemory>
    ensures { IfOk result (λ item. (eims.new, item) ≡ do_eco eims.old op.now) }
{
    match op {
        Eco::Add { id, address, key } => Ok(item_of(eims.add(*id, *address, *key))),
        Eco::Update { id, address, key } => Ok(Item::Update(eims.update(id, *address, *key))),
        Eco::Delete { id } => Ok(Item::Dropped(eims.delete(id))),
        Eco::List => Ok(Item::Eims(eims.list(alloc)?)),
    }
}

// The operations are executed after those whose items are `done`.
#[tactic(auto, unfolding(small_card::specs::Packages::run_ecos))]
fn run_ecos(
    alloc: Global,
    mut done: Row<Item>,
    mut eims: Eims,
    ops: &[Eco],
) -> Result<EcoDone, NoMemory>
    ensures { IfOk result (λ end. (end.eims, end.items) ≡ run_ecos done eims ops.now) }
{
    match ops {
        [] => Ok(EcoDone { eims, items: done }),
        [op, later @ ..] => {
            let item = do_eco(alloc, &mut eims, op)?;
            let goes_on = item.is_done();
            done.push(item).map_err(|_| NoMemory)?;
            if goes_on {
                run_ecos(alloc, done, eims, later)
            } else {
                Ok(EcoDone { eims, items: done })
            }
        }
    }
}

/// Executes a package's operations on a table, which the caller gives away: a copy of the card's.
///
/// Where memory runs out the table is dropped with what was done.
#[tactic(auto, unfolding(small_card::specs::Packages::execute))]
pub fn run(alloc: Global, eims: Eims, ops: &Row<Eco>) -> Result<EcoDone, NoMemory>
    ensures executed { IfOk result (λ done. (profiles : List Profile)
        → execute profiles eims (Ecos ops.now)
        ≡ record { profiles = profiles; eims = done.eims; items = done.items; armed = None }) }
{
    run_ecos(
        alloc,
        Reserve::with_room(alloc, ops.len())?.into_row(),
        eims,
        ops.as_slice(),
    )
}
