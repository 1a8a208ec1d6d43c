//! What the table does to the list of its entries.

ghost use Rattle.std.specs.Prelude.{◌≡◌, ◌<◌, ◌≤◌, ◌+◌, ◌++◌, ◌∷◌, [], length, map, find, position};
ghost use Rattle.std.specs.Prelude.{if◌then◌else◌, IfOk};
ghost use Rattle.std.specs.Option.{option_copied};
ghost use Rattle.small_card.specs.Lists.{EveryPair};
ghost use Rattle.small_card.specs.EimOperations.{is_eim, has_eim, without_eim, line_of};
ghost use Rattle.small_card.specs.EimOperations.{with_fields, updated, counted, with_counter};
ghost use Rattle.small_card.specs.EimOperations.{is_empty_list};
ghost use Rattle.small_card.specs.Valid.{AreEntriesApart};

use iot_bytes::{NoMemory, Reserve, Row};
use sgp_values::{Address, EimId, Key};
use small_card::codes::{DONE, LAST_DELETED};
use small_card::limits::MOST_EIMS;
use small_card::{EimEntry, EimLine};
use std::alloc::Global;

#[tactic(auto, unfolding(small_card::specs::EimOperations::has_eim))]
pub(crate) fn has_eim(entries: &[EimEntry], id: &EimId) -> bool
    ensures { result ≡ has_eim id.now entries.now }
{
    entries.iter().any(|e| *id == e.id)
}

fn place_of(entries: &[EimEntry], id: &EimId) -> Option<usize>
    ensures { result ≡ position (is_eim id.now) entries.now }
{
    entries.iter().position(|e| *id == e.id)
}

pub(crate) fn entry_of<'a>(entries: &'a [EimEntry], id: &EimId) -> Option<&'a EimEntry>
    ensures { option_copied result ≡ find (is_eim id.now) entries.now }
{
    entries.iter().find(|e| *id == e.id)
}

pub(crate) fn put_last(entries: &mut Reserve<EimEntry>, entry: EimEntry)
    requires { 0 < entries.old.spare }
    ensures items { entries.new.items ≡ entries.old.items ++ entry ∷ [] }
    ensures room { entries.old.spare ≤ entries.new.spare + 1 }
{
    entries.push(entry).unwrap()
}

pub(crate) fn take_out(entries: &mut Reserve<EimEntry>, id: &EimId)
    requires { EveryPair AreEntriesApart entries.old.items }
    ensures items { entries.new.items ≡ without_eim id.now entries.old.items }
    ensures room { length entries.old.items + entries.old.spare ≤ length entries.new.items + entries.new.spare }
{
    if let Some(at) = place_of(entries.as_slice(), id) {
        entries.remove(at);
    }
}

fn with_fields(
    entry: &EimEntry,
    id: &EimId,
    address: &Option<Address>,
    key: &Option<Key>,
) -> EimEntry
    ensures { result ≡ with_fields id.now address.now key.now entry.now }
{
    if *id != entry.id {
        return *entry;
    }
    EimEntry {
        address: address.unwrap_or(entry.address),
        key: key.unwrap_or(entry.key),
        ..*entry
    }
}

#[tactic(auto, using(std::proofs::lemmas::List::Edits::map_over_more), unfolding(small_card::specs::EimOperations::updated))]
pub(crate) fn set_fields(
    entries: &mut Reserve<EimEntry>,
    id: &EimId,
    address: &Option<Address>,
    key: &Option<Key>,
)
    ensures items { entries.new.items ≡ updated id.now address.now key.now entries.old.items }
    ensures room { entries.new.spare ≡ entries.old.spare }
{
    for at in 0..entries.len() {
        let entry = entries.as_slice()[at];
        entries.set(at, with_fields(&entry, id, address, key));
    }
}

fn counted(entry: &EimEntry, id: &EimId, counter: u64) -> EimEntry
    ensures { result ≡ counted id.now counter entry.now }
{
    if *id != entry.id {
        return *entry;
    }
    EimEntry { counter, ..*entry }
}

#[tactic(auto, using(std::proofs::lemmas::List::Edits::map_over_more), unfolding(small_card::specs::EimOperations::with_counter))]
pub(crate) fn set_counter(entries: &mut Reserve<EimEntry>, id: &EimId, counter: u64)
    ensures items { entries.new.items ≡ with_counter id.now counter entries.old.items }
    ensures room { entries.new.spare ≡ entries.old.spare }
{
    for at in 0..entries.len() {
        let entry = entries.as_slice()[at];
        entries.set(at, counted(&entry, id, counter));
    }
}

#[tactic(auto, unfolding(small_card::specs::EimOperations::is_empty_list))]
pub(crate) fn deletion_code(left: &[EimEntry]) -> u8
    ensures { result ≡ (if is_empty_list left.now then 2 else 0) }
{
    match left {
        [] => LAST_DELETED,
        [_, ..] => DONE,
    }
}

#[tactic(auto, unfolding(small_card::specs::EimOperations::line_of))]
fn line_of(entry: &EimEntry) -> EimLine
    ensures { result ≡ line_of entry.now }
{
    EimLine {
        id: entry.id,
        address: entry.address,
        association: entry.association,
        counter: entry.counter,
    }
}

#[tactic(auto, using(std::proofs::lemmas::List::map_more))]
pub(crate) fn lines_of(alloc: Global, entries: &[EimEntry]) -> Result<Row<EimLine>, NoMemory>
    ensures { IfOk result (λ row. row ≡ map line_of entries.now) }
{
    let mut out = Reserve::with_room(alloc, entries.len())?.into_row();
    for entry in entries {
        out.push(line_of(entry)).map_err(|_| NoMemory)?;
    }
    Ok(out)
}

pub(crate) fn copy_entries(
    alloc: Global,
    entries: &[EimEntry],
) -> Result<Reserve<EimEntry>, NoMemory>
    ensures items { IfOk result (λ held. held.items ≡ entries.now) }
    ensures room { IfOk result (λ held. 8 ≤ length held.items + held.spare) }
{
    let mut out = Reserve::with_room(alloc, MOST_EIMS)?;
    out.append(entries)?;
    Ok(out)
}
