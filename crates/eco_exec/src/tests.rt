use super::*;
use eim_table::Eims;
use iot_bytes::{NoMemory, Row};
use sgp_values::{Address, EimId, Key, OutOfRange};
use small_card::{Eco, Item};
use std::alloc::Global;
use std::test::Fail;

fn add(id: &[u8]) -> Result<Eco, OutOfRange> {
    Ok(Eco::Add {
        id: EimId::of(id)?,
        address: Address::of(b"")?,
        key: Key::of(b"")?,
    })
}

fn delete(id: &[u8]) -> Result<Eco, OutOfRange> {
    Ok(Eco::Delete { id: EimId::of(id)? })
}

fn row_of(alloc: Global, ops: &[Eco]) -> Result<Row<Eco>, NoMemory> {
    let mut row = Row::new(alloc);
    row.append(ops)?;
    Ok(row)
}

// A table with e1, whose association is 1.
fn table(alloc: Global) -> Result<Eims, Fail> {
    let mut eims = Eims::new(alloc, 1)?;
    let _ = eims.add(EimId::of(b"e1")?, Address::of(b"")?, Key::of(b"")?);
    Ok(eims)
}

// A text that tells the items of a package's result, as a trace prints them.
fn text(rt: &HostRuntime, items: &Row<Item>) -> Result<String, Fail> {
    let mut all = String::new(rt.alloc());
    for item in items.as_slice() {
        let one = match item {
            Item::Add { code, association } => format!(in rt.alloc(); " add={code}:{association}")?,
            Item::Update(code) => format!(in rt.alloc(); " update={code}")?,
            Item::Dropped(code) => format!(in rt.alloc(); " drop={code}")?,
            Item::Eims(rows) => format!(in rt.alloc(); " eims={}", rows.len())?,
            _ => return Err("an item of another kind".into()),
        };
        all.push_str(one.as_str())?;
    }
    Ok(all)
}

// What a package tells that is executed on the table with e1.
fn told(rt: &HostRuntime, ops: &[Eco]) -> Result<String, Fail> {
    let ops = row_of(rt.alloc(), ops)?;
    let done = run(rt.alloc(), table(rt.alloc())?, &ops)?;
    text(rt, &done.items)
}

#[test]
fn an_association_is_given_once(rt: HostRuntime) -> Result<(), Fail> {
    let ops = [add(b"e2")?, delete(b"e2")?, add(b"e2")?];
    assert_eq!(rt; told(&rt, &ops)?.as_str(), " add=0:2 drop=0 add=0:3");
    Ok(())
}

#[test]
fn the_last_eim_leaves(rt: HostRuntime) -> Result<(), Fail> {
    let ops = [delete(b"e1")?, Eco::List];
    assert_eq!(rt; told(&rt, &ops)?.as_str(), " drop=2 eims=0");
    Ok(())
}

#[test]
fn an_undone_operation_stops(rt: HostRuntime) -> Result<(), Fail> {
    let ops = [delete(b"e9")?, Eco::List];
    assert_eq!(rt; told(&rt, &ops)?.as_str(), " drop=1");
    Ok(())
}

#[test]
fn eight_additions(rt: HostRuntime) -> Result<(), Fail> {
    let mut ops = Row::new(rt.alloc());
    for digit in b"12345678" {
        assert!(rt; ops.push(add(&[b'a', *digit])?).is_ok());
    }
    let wanted = " add=0:2 add=0:3 add=0:4 add=0:5 add=0:6 add=0:7 add=0:8 add=2:0";
    assert_eq!(rt; told(&rt, ops.as_slice())?.as_str(), wanted);
    Ok(())
}
