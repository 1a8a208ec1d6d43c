//! What no clause says: that the calls succeed where there is memory, and the checks on examples.

use super::*;
use eim_table::Eims;
use iot_bytes::Row;
use result_store::Store;
use sgp_values::{Address, Eid, EimId, Key, OutOfRange};
use small_card::{Body, Item, Psmo, Refused};
use std::alloc::Global;
use std::test::Fail;

/// A signed package that lists profiles. The first two are the last octets of its eIM and its EID.
fn list_package(eim: u8, eid: u8, association: u8, counter: u8) -> [u8; 38] {
    [
        0x30,
        0x24,
        0x30,
        0x20,
        0x80,
        2,
        b'e',
        eim,
        0x81,
        16,
        0,
        1,
        2,
        3,
        4,
        5,
        6,
        7,
        8,
        9,
        10,
        11,
        12,
        13,
        14,
        eid,
        0x82,
        1,
        association,
        0x83,
        1,
        counter,
        0xa4,
        2,
        0x83,
        0,
        0x86,
        0,
    ]
}

fn card_eid() -> Result<Eid, OutOfRange> {
    Eid::of(&[0, 1, 2, 3, 4, 5, 6, 7, 8, 9, 10, 11, 12, 13, 14, 15])
}

/// The eIM `e1` with association 2, of which counter 5 was taken.
fn eims_of(alloc: Global) -> Result<Eims, Fail> {
    let mut eims = Eims::new(alloc, 2)?;
    let id = EimId::of(b"e1")?;
    let _ = eims.add(id, Address::of(b"")?, Key::of(b"")?);
    if let Some(entry) = eims.find(&id) {
        if entry.counter < 5 {
            eims.accept(&id, 5);
        }
    }
    Ok(eims)
}

/// A store in which eight results are pending.
fn full_store(alloc: Global) -> Result<Store, Fail> {
    let mut store = Store::new(alloc, 1)?;
    for _ in 0..8 {
        let mut items = Row::new(alloc);
        if items.push(Item::Enable(0)).is_err() {
            return Err("no memory for an item".into());
        }
        if store.has_room() {
            let _ = store.put(EimId::of(b"e1")?, 2, 5, items);
        }
    }
    Ok(store)
}

fn received(alloc: Global, good: bool, bytes: &[u8]) -> Result<Received, Fail> {
    match Received::parse(alloc, good, bytes) {
        Ok(received) => Ok(received),
        Err(_) => Err("a package was expected".into()),
    }
}

#[test]
fn octets_that_are_no_package(rt: HostRuntime) -> Result<(), Fail> {
    let zeros = [0; 4097];
    let cases: [(&[u8], u8); 3] = [(&[], 1), (&zeros[..4096], 1), (&zeros, 8)];
    for (bytes, code) in cases {
        let wanted = Refused {
            code,
            kept: 0,
            received: 0,
        };
        for good in [false, true] {
            assert_eq!(rt;
                Received::parse(rt.alloc(), good, bytes).err(),
                Some(ParseEnd::Refused(wanted))
            );
        }
    }
    Ok(())
}

// Each of these fails the checks after its own too.
#[test]
fn the_first_failed_check_answers(rt: HostRuntime) -> Result<(), Fail> {
    let (eid, eims, store) = (card_eid()?, eims_of(rt.alloc())?, full_store(rt.alloc())?);
    let cases = [
        (false, list_package(b'2', 16, 1, 4), (2, 0, 0)),
        (false, list_package(b'1', 16, 1, 4), (3, 0, 0)),
        (true, list_package(b'1', 16, 1, 4), (4, 0, 0)),
        (true, list_package(b'1', 15, 1, 4), (5, 0, 0)),
        (true, list_package(b'1', 15, 3, 4), (5, 0, 0)),
        (true, list_package(b'1', 15, 2, 4), (6, 5, 4)),
        (true, list_package(b'1', 15, 2, 5), (6, 5, 5)),
        (true, list_package(b'1', 15, 2, 6), (7, 0, 0)),
    ];
    for (good, bytes, wanted) in cases {
        let Err(why) = received(rt.alloc(), good, &bytes)?.check(&eid, &eims, &store) else {
            return Err("a refusal was expected".into());
        };
        assert_eq!(rt; (why.code, why.kept, why.received), wanted);
    }
    Ok(())
}

#[test]
fn a_package_passes(rt: HostRuntime) -> Result<(), Fail> {
    let (eid, eims, store) = (
        card_eid()?,
        eims_of(rt.alloc())?,
        Store::new(rt.alloc(), 1)?,
    );
    let request = received(rt.alloc(), true, &list_package(b'1', 15, 2, 6))?;
    let Ok(checked) = request.check(&eid, &eims, &store) else {
        return Err("a package that passes was expected".into());
    };
    let load = checked.package();
    assert_eq!(rt; (load.eim, load.eid), (EimId::of(b"e1")?, eid));
    assert_eq!(rt; (load.association, load.counter), (2, 6));
    let Body::Psmos(ops) = &load.body else {
        return Err("operations on profiles were expected".into());
    };
    assert_eq!(rt; ops.as_slice(), [Psmo::List].as_slice());
    Ok(())
}
