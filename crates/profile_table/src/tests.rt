use super::*;
use iot_bytes::{NoMemory, Row};
use sgp_values::{Iccid, Nickname, OutOfRange};
use small_card::Profile;
use std::alloc::Global;
use std::test::Fail;

fn iccid(last: u8) -> Result<Iccid, OutOfRange> {
    Iccid::of(&[0x98, 0x44, 0, 0, 0, 0, 0, 0, 0, last])
}

fn profile(last: u8, enabled: bool) -> Result<Profile, OutOfRange> {
    Ok(Profile {
        iccid: iccid(last)?,
        enabled,
        nickname: Nickname::of(b"home")?,
    })
}

fn row_of(alloc: Global, profiles: &[Profile]) -> Result<Row<Profile>, NoMemory> {
    let mut row = Row::new(alloc);
    row.append(profiles)?;
    Ok(row)
}

// So many profiles that aren't enabled, with ICCIDs of their own.
fn disabled(alloc: Global, many: u8) -> Result<Row<Profile>, Fail> {
    let mut row = Row::new(alloc);
    for last in 0..many {
        row.append(&[profile(last, false)?])?;
    }
    Ok(row)
}

fn table_of(alloc: Global, profiles: &[Profile]) -> Result<Table, Fail> {
    match Table::of(row_of(alloc, profiles)?) {
        Ok(table) => Ok(table),
        Err(_) => Err("a list that is no table".into()),
    }
}

#[test]
fn lists_that_are_tables(rt: HostRuntime) -> Result<(), Fail> {
    for many in [0, 1, 16] {
        let list = disabled(rt.alloc(), many)?;
        let wanted = list.copy(rt.alloc())?;
        match Table::of(list) {
            Ok(table) => assert_eq!(rt; table.rows(), wanted.as_slice()),
            Err(_) => return Err("a table is handed back".into()),
        }
    }
    Ok(())
}

#[test]
fn lists_that_are_handed_back(rt: HostRuntime) -> Result<(), Fail> {
    let cases = [
        row_of(rt.alloc(), &[profile(1, true)?, profile(2, true)?])?,
        row_of(
            rt.alloc(),
            &[profile(1, false)?, profile(2, true)?, profile(1, false)?],
        )?,
        disabled(rt.alloc(), 17)?,
    ];
    for list in cases {
        let wanted = list.copy(rt.alloc())?;
        match Table::of(list) {
            Ok(_) => return Err("a list that is no table is taken".into()),
            Err(back) => assert_eq!(rt; back.as_slice(), wanted.as_slice()),
        }
    }
    Ok(())
}

#[test]
fn a_table_is_looked_up(rt: HostRuntime) -> Result<(), Fail> {
    let table = table_of(rt.alloc(), &[profile(1, false)?, profile(2, true)?])?;
    assert_eq!(rt; table.find(&iccid(2)?), Some(1));
    assert_eq!(rt; table.find(&iccid(9)?), None);
    assert_eq!(rt; table.enabled(), Some(iccid(2)?));
    assert!(rt; table.has(&iccid(1)?));
    assert!(rt; !table.is_enabled(&iccid(1)?));
    assert!(rt; table.is_enabled(&iccid(2)?));
    Ok(())
}

#[test]
fn operations_leave_a_table(rt: HostRuntime) -> Result<(), Fail> {
    let start = [profile(1, true)?, profile(2, false)?, profile(3, false)?];
    let mut table = table_of(rt.alloc(), &start)?;
    for wrong in [
        table.enable(&iccid(1)?),
        table.disable(&iccid(2)?),
        table.delete(&iccid(1)?),
    ] {
        assert_eq!(rt; wrong, 2);
    }
    for absent in [
        table.enable(&iccid(9)?),
        table.disable(&iccid(9)?),
        table.delete(&iccid(9)?),
    ] {
        assert_eq!(rt; absent, 1);
    }
    assert_eq!(rt; table.rows(), start.as_slice());
    assert_eq!(rt; table.enable(&iccid(3)?), 0);
    assert_eq!(rt;
        table.rows(),
        [profile(1, false)?, profile(2, false)?, profile(3, true)?].as_slice()
    );
    assert_eq!(rt; table.delete(&iccid(1)?), 0);
    assert_eq!(rt;
        table.rows(),
        [profile(2, false)?, profile(3, true)?].as_slice()
    );
    assert_eq!(rt; table.disable(&iccid(3)?), 0);
    assert_eq!(rt;
        table.rows(),
        [profile(2, false)?, profile(3, false)?].as_slice()
    );
    Ok(())
}

#[test]
fn a_table_is_listed_and_copied(rt: HostRuntime) -> Result<(), Fail> {
    let start = [profile(1, true)?, profile(2, false)?];
    let mut table = table_of(rt.alloc(), &start)?;
    let listed = table.list(rt.alloc())?;
    let copy = table.copy(rt.alloc())?;
    assert_eq!(rt; table.disable(&iccid(1)?), 0);
    assert_eq!(rt; listed.as_slice(), start.as_slice());
    assert_eq!(rt; copy.rows(), start.as_slice());
    Ok(())
}
