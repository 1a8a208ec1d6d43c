//! What no clause says: that the calls succeed where there is memory, and worked rollbacks.

use super::*;
use iot_bytes::Row;
use profile_table::Table;
use result_store::Store;
use sgp_values::{EimId, Iccid, Nickname, OutOfRange};
use small_card::{Armed, Item, PackageResult, Profile};
use std::alloc::Global;
use std::test::Fail;

const NAMES: [&str; 3] = ["A", "B", "C"];

// The ICCID of the profile at this place.
fn iccid(place: u8) -> Result<Iccid, OutOfRange> {
    Iccid::of(&[0x98, 0x44, 0, 0, 0, 0, 0, 0, 0, place])
}

// The profiles A, B and C, of which the one at this place is enabled.
fn table_of(alloc: Global, enabled: u8) -> Result<Table, Fail> {
    let mut rows = Row::new(alloc);
    for place in 0..3 {
        rows.append(&[Profile {
            iccid: iccid(place)?,
            enabled: place == enabled,
            nickname: Nickname::of(b"")?,
        }])?;
    }
    match Table::of(rows) {
        Ok(table) => Ok(table),
        Err(_) => Err("a list that is no table".into()),
    }
}

// 'e' is an enable and 'd' a disable that was done, 'x' a delete of an armed profile.
fn items_of(alloc: Global, letters: &[u8]) -> Result<Row<Item>, Fail> {
    let mut items = Row::new(alloc);
    for letter in letters {
        let item = match letter {
            b'e' => Item::Enable(0),
            b'd' => Item::Disable(0),
            _ => Item::Delete(3),
        };
        if items.push(item).is_err() {
            return Err("no memory for an item".into());
        }
    }
    Ok(items)
}

// Results in turn, from number 1.
fn store_of(alloc: Global, results: &[&[u8]]) -> Result<Store, Fail> {
    let mut store = Store::new(alloc, 1)?;
    for letters in results {
        let items = items_of(alloc, letters)?;
        if !store.has_room() {
            return Err("more results than a store has".into());
        }
        let _ = store.put(EimId::of(b"e1")?, 1, 1, items);
    }
    Ok(store)
}

fn kept_text(rt: &HostRuntime, kept: &PackageResult) -> Result<String, Fail> {
    let mark = if kept.rolled { "r" } else { "" };
    let mut all = format!(in rt.alloc();
        " {}/{}/{}{mark}",
        kept.seq, kept.association, kept.counter
    )?;
    for item in kept.items.as_slice() {
        all.push_str(match item {
            Item::Enable(0) => " enable",
            Item::Disable(0) => " disable",
            Item::Delete(3) => " armed",
            _ => " another",
        })?;
    }
    Ok(all)
}

fn text(rt: &HostRuntime, rolled: &Rolled) -> Result<String, Fail> {
    let mut all = format!(in rt.alloc(); "rolled {}", rolled.seq)?;
    for (profile, name) in rolled.table.rows().iter().zip(NAMES.iter()) {
        all.push_str(if profile.enabled { " +" } else { " -" })?;
        all.push_str(name)?;
    }
    for kept in rolled.store.rows() {
        all.push_str(kept_text(rt, kept)?.as_str())?;
    }
    Ok(all)
}

// A rollback to A, where a card has armed it with this result.
fn told(rt: &HostRuntime, enabled: u8, results: &[&[u8]], seq: u32) -> Result<String, Fail> {
    let table = table_of(rt.alloc(), enabled)?;
    let store = store_of(rt.alloc(), results)?;
    let armed = Some(Armed {
        former: iccid(0)?,
        seq,
    });
    match permitted(&armed) {
        Some(armed)
            if table.has(&armed.former)
                && store.get(armed.seq).is_some()
                && store.next() < u32::MAX => { text(rt, &roll(table, store, *armed)) }
        _ => Err("no rollback".into()),
    }
}

#[test]
fn worked_rollbacks(rt: HostRuntime) -> Result<(), Fail> {
    let cases: [(u8, &[&[u8]], u32, &str); 6] = [
        (1, &[b"e"], 1, "rolled 2 +A -B -C 2/1/1r enable"),
        (1, &[b"de"], 1, "rolled 2 +A -B -C 2/1/1r disable enable"),
        (1, &[b"ex"], 1, "rolled 2 +A -B -C 2/1/1r enable armed"),
        (0, &[b"ee"], 1, "rolled 2 +A -B -C 2/1/1r enable enable"),
        (9, &[b"ed"], 1, "rolled 2 +A -B -C 2/1/1r enable disable"),
        (
            2,
            &[b"e", b"d"],
            1,
            "rolled 3 +A -B -C 2/1/1 disable 3/1/1r enable",
        ),
    ];
    for (enabled, results, seq, wanted) in cases {
        assert_eq!(rt; told(&rt, enabled, results, seq)?.as_str(), wanted);
    }
    Ok(())
}

#[test]
fn nothing_is_armed(rt: HostRuntime) -> Result<(), Fail> {
    assert!(rt; permitted(&None).is_none());
    Ok(())
}
