ghost use Rattle.std.specs.Prelude.{◌≤◌, ◌<◌};

use super::*;
use iot_bytes::{NoMemory, Row};
use sgp_values::{Address, EimId, Key, OutOfRange};
use small_card::{EimEntry, EimLine};
use std::alloc::Global;
use std::test::Fail;

fn entry(id: &[u8], association: u32) -> Result<EimEntry, OutOfRange> {
    Ok(EimEntry {
        id: EimId::of(id)?,
        address: Address::of(b"")?,
        key: Key::of(b"")?,
        counter: 0,
        association,
    })
}

fn add(eims: &mut Eims, id: &[u8]) -> Result<AddEnd, OutOfRange> {
    Ok(eims.add(EimId::of(id)?, Address::of(b"")?, Key::of(b"")?))
}

#[tactic(auto, using(crate::proofs::Keeping::one_eims))]
fn table_of_one(alloc: Global, entry: EimEntry, next: u32) -> Result<Eims, NoMemory>
    requires some { 1 ≤ entry.association }
    requires given { entry.association < next }
{
    let mut entries = Row::new(alloc);
    if entries.push(entry).is_err() {
        return Err(NoMemory);
    }
    Eims::of(entries, next)
}

#[test]
fn associations_at_their_end(rt: HostRuntime) -> Result<(), Fail> {
    let mut none_left = Eims::new(rt.alloc(), 4294967295)?;
    assert_eq!(rt; add(&mut none_left, b"e1")?, AddEnd::Refused(3));
    let mut one_left = Eims::new(rt.alloc(), 4294967294)?;
    assert_eq!(rt; add(&mut one_left, b"e1")?, AddEnd::Added(4294967294));
    assert_eq!(rt; one_left.next(), 4294967295);
    assert_eq!(rt; add(&mut one_left, b"e1")?, AddEnd::Refused(1));
    assert_eq!(rt; add(&mut one_left, b"e2")?, AddEnd::Refused(3));
    Ok(())
}

#[test]
fn a_table_of_entries_adds_the_next(rt: HostRuntime) -> Result<(), Fail> {
    let kept = EimEntry {
        association: 2,
        ..entry(b"e1", 0)?
    };
    let mut eims = table_of_one(rt.alloc(), kept, 5)?;
    assert_eq!(rt; eims.rows(), [kept].as_slice());
    assert_eq!(rt; add(&mut eims, b"e2")?, AddEnd::Added(5));
    let wanted = [kept, entry(b"e2", 5)?];
    assert_eq!(rt; eims.rows(), wanted.as_slice());
    assert_eq!(rt; eims.copy(rt.alloc())?.rows(), wanted.as_slice());
    Ok(())
}

#[test]
fn eight_entries_are_the_most(rt: HostRuntime) -> Result<(), Fail> {
    let mut eims = Eims::new(rt.alloc(), 1)?;
    for digit in b"12345678" {
        assert!(rt; matches!(add(&mut eims, &[b'e', *digit])?, AddEnd::Added(_)));
    }
    assert_eq!(rt; add(&mut eims, b"e9")?, AddEnd::Refused(2));
    assert_eq!(rt; add(&mut eims, b"e8")?, AddEnd::Refused(1));
    assert_eq!(rt; eims.delete(&EimId::of(b"e3")?), 0);
    assert_eq!(rt; add(&mut eims, b"e3")?, AddEnd::Added(9));
    assert_eq!(rt; eims.rows().len(), 8);
    Ok(())
}

#[test]
fn an_entry_changes_and_leaves(rt: HostRuntime) -> Result<(), Fail> {
    let mut eims = Eims::new(rt.alloc(), 1)?;
    let (id, other) = (EimId::of(b"e1")?, EimId::of(b"e2")?);
    let (address, key) = (Address::of(b"host")?, Key::of(&[1, 2])?);
    assert_eq!(rt; add(&mut eims, b"e1")?, AddEnd::Added(1));
    assert_eq!(rt; eims.update(&id, Some(address), None), 0);
    assert_eq!(rt; eims.update(&id, None, Some(key)), 0);
    assert_eq!(rt; eims.update(&other, None, None), 1);
    if let Some(kept) = eims.find(&id) {
        if kept.counter < 7 {
            eims.accept(&id, 7);
        }
    }
    let wanted = EimEntry {
        address,
        key,
        counter: 7,
        ..entry(b"e1", 1)?
    };
    assert_eq!(rt; eims.find(&id), Some(wanted));
    assert_eq!(rt; eims.find(&other), None);
    let line = EimLine {
        id,
        address,
        association: 1,
        counter: 7,
    };
    assert_eq!(rt; eims.list(rt.alloc())?.as_slice(), [line].as_slice());
    assert_eq!(rt; eims.delete(&other), 1);
    assert_eq!(rt; eims.delete(&id), 2);
    assert_eq!(rt; add(&mut eims, b"e1")?, AddEnd::Added(2));
    Ok(())
}
