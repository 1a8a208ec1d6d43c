//! What no clause says: that calls succeed where there is memory, and the rules on examples.

use super::*;
use iot_bytes::Row;
use sgp_values::EimId;
use small_card::{Item, PackageResult};
use std::alloc::Global;
use std::process::Abort;
use std::test::Fail;

// What a test keeps of a result: its number, its counter, and whether it is marked.
type Kept = (u32, u64, bool);

fn items_of(alloc: Global, code: u8) -> Result<Row<Item>, Fail> {
    let mut items = Row::new(alloc);
    if items.push(Item::Enable(code)).is_err() {
        return Err("no memory for an item".into());
    }
    Ok(items)
}

fn code_of(kept: &PackageResult) -> Option<u8> {
    match kept.items.as_slice() {
        [Item::Enable(code)] => Some(*code),
        _ => None,
    }
}

fn check_rows(rt: &impl Abort, rows: &[PackageResult], list: &[Kept]) -> Result<(), Fail> {
    assert_eq!(rt; rows.len(), list.len());
    for (kept, wanted) in rows.iter().zip(list.iter()) {
        assert_eq!(rt; (kept.seq, kept.counter, kept.rolled), *wanted);
        assert_eq!(rt; (kept.eim, kept.association), (EimId::of(b"e1")?, 1));
        assert_eq!(rt; code_of(kept), Some(2));
    }
    Ok(())
}

fn made_again(alloc: Global, store: &Store) -> Result<Store, Fail> {
    if store.rows().is_empty() {
        return Err("no result is pending".into());
    }
    Ok(Store::of(store.list(alloc)?, store.next())?)
}

#[test]
fn a_store_is_made_again(rt: HostRuntime) -> Result<(), Fail> {
    let mut store = Store::new(rt.alloc(), 2)?;
    if store.has_room() {
        let items = items_of(rt.alloc(), 2)?;
        assert_eq!(rt; store.put(EimId::of(b"e1")?, 1, 7, items), 2);
    }
    for _ in 0..2 {
        if store.next() < u32::MAX {
            store.pass_number();
        }
    }
    assert_eq!(rt; store.next(), 5);
    let mut again = made_again(rt.alloc(), &store)?;
    check_rows(&rt, again.rows(), &[(2, 7, false)])?;
    assert!(rt; again.has_room());
    if again.has_room() {
        let items = items_of(rt.alloc(), 2)?;
        assert_eq!(rt; again.put(EimId::of(b"e1")?, 1, 8, items), 5);
    }
    assert_eq!(rt; again.remove(3), RemoveEnd::Absent);
    if again.get(2).is_some() && again.next() < u32::MAX {
        assert_eq!(rt; again.mark_rolled(2), 6);
    }
    let copy = again.copy(rt.alloc())?;
    check_rows(&rt, copy.rows(), &[(5, 8, false), (6, 7, true)])?;
    assert_eq!(rt; again.remove(6), RemoveEnd::Removed);
    check_rows(&rt, again.rows(), &[(5, 8, false)])
}
