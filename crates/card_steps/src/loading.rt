ghost use Rattle.std.specs.Prelude.{◌≡◌, true, Option, IfOk};
ghost use Rattle.small_card.specs.Checks.{has_room};
ghost use Rattle.small_card.specs.Packages.{armed_with, execute, result_of};
ghost use Rattle.small_card.specs.Steps.{step_full};
ghost use Rattle.small_card.specs.Units.{load as load_unit};
ghost use Rattle.small_card.specs.declared.types.Command.TheVariants as command;
ghost use Rattle.eim_table.specs.Entries.{MayCount};
ghost use Rattle.home_codec.specs.FullCards.{full_card, small_card};
ghost use Rattle.card_steps.specs.Steps.{Turns, TurnsBy};

use crate::turns::Turn;
use counter_check::{ParseEnd, Received};
use eim_table::Eims;
use home_codec::Card;
use iot_bytes::{NoMemory, Row};
use profile_table::Table;
use sgp_values::Iccid;
use small_card::{Answer, Armed, Body, Item, Package, PackageResult, copy_items};
use std::alloc::Global;

// What a package's operations left, with an item for each that was executed, and the profile that
// they armed.
#[derive(Debug, Drop)]
struct Executed {
    profiles: Table,
    eims: Eims,
    items: Row<Item>,
    armed: Option<Iccid>,
}

// Executes operations on these eIMs, or on a copy of these profiles.
fn execute(alloc: Global, profiles: &Table, eims: Eims, body: &Body) -> Result<Executed, NoMemory>
    ensures executed { IfOk result (λ end. execute profiles.now eims body.now
        ≡ record { profiles = end.profiles; eims = end.eims; items = end.items; armed = end.armed }) }
{
    let profiles = profiles.copy(alloc)?;
    match body {
        Body::Psmos(ops) => {
            let done = psmo_exec::run(alloc, profiles, ops)?;
            Ok(Executed {
                profiles: done.table,
                eims,
                items: done.items,
                armed: done.armed,
            })
        }
        Body::Ecos(ops) => {
            let done = eco_exec::run(alloc, eims, ops)?;
            Ok(Executed {
                profiles,
                eims: done.eims,
                items: done.items,
                armed: None,
            })
        }
    }
}

// What is armed by a package whose result has this number.
fn armed_with(seq: u32, former: Option<Iccid>) -> Option<Armed>
    ensures armed { result ≡ armed_with seq former }
{
    former.map(|former| Armed { former, seq })
}

// The card after a package that passed the checks, and its result: the counter is kept and what was
// armed ends, then come the operations, their result, and what is armed anew.
fn take(alloc: Global, card: &Card, load: &Package) -> Result<(Card, PackageResult), NoMemory>
    requires count { MayCount load.now.eim load.now.counter card.now.eims.entries }
    requires room { has_room card.now.store ≡ true }
    ensures unit { IfOk result (λ end. full_card end.0
        ≡ step_full (full_card card.now) (load_unit load.now)) }
    ensures answer { IfOk result (λ end. end.1 ≡ result_of (small_card card.now) load.now) }
{
    let mut eims = card.eims.copy(alloc)?;
    let mut store = card.store.copy(alloc)?;
    eims.accept(&load.eim, load.counter);
    let done = execute(alloc, &card.profiles, eims, &load.body)?;
    let items = copy_items(alloc, done.items.as_slice())?;
    let seq = store.put(load.eim, load.association, load.counter, done.items);
    let armed = armed_with(seq, done.armed);
    let next = Card {
        eid: card.eid,
        profiles: done.profiles,
        eims: done.eims,
        store,
        armed,
    };
    let answer = PackageResult {
        seq,
        eim: load.eim,
        association: load.association,
        counter: load.counter,
        items,
        rolled: false,
    };
    Ok((next, answer))
}

// Answers a load whose package was read.
fn load_received(alloc: Global, card: &Card, received: Received) -> Result<Turn, NoMemory>
    ensures turns { IfOk result (λ end. TurnsBy received (full_card card.now) end) }
{
    match received.check(&card.eid, &card.eims, &card.store) {
        Ok(checked) => {
            let taken = take(alloc, card, checked.package())?;
            Ok(Turn::Changed(taken.0, Answer::Loaded(taken.1)))
        }
        Err(why) => Ok(Turn::Same(Answer::LoadRefused(why))),
    }
}

/// Answers a load. The checks come before anything is copied.
pub(crate) fn load(alloc: Global, card: &Card, good: bool, bytes: &[u8]) -> Result<Turn, NoMemory>
    ensures turns { IfOk result (λ end. Turns (command.Load good bytes.now)
        (full_card card.now) end) }
{
    match Received::parse(alloc, good, bytes) {
        Ok(received) => load_received(alloc, card, received),
        Err(ParseEnd::Refused(why)) => Ok(Turn::Same(Answer::LoadRefused(why))),
        Err(ParseEnd::NoMemory) => Err(NoMemory),
    }
}
