use super::*;
use iot_bytes::{NoMemory, Row};
use profile_table::Table;
use sgp_values::{Iccid, Nickname, OutOfRange};
use small_card::{Item, Profile, Psmo};
use std::alloc::Global;
use std::test::Fail;

fn iccid(last: u8) -> Result<Iccid, OutOfRange> {
    Iccid::of(&[0x98, 0x44, 0, 0, 0, 0, 0, 0, 0, last])
}

fn profile(last: u8, enabled: bool) -> Result<Profile, OutOfRange> {
    Ok(Profile {
        iccid: iccid(last)?,
        enabled,
        nickname: Nickname::of(b"")?,
    })
}

fn enable(last: u8, rollback: bool) -> Result<Psmo, OutOfRange> {
    Ok(Psmo::Enable {
        iccid: iccid(last)?,
        rollback,
    })
}

fn disable(last: u8) -> Result<Psmo, OutOfRange> {
    Ok(Psmo::Disable {
        iccid: iccid(last)?,
    })
}

fn delete(last: u8) -> Result<Psmo, OutOfRange> {
    Ok(Psmo::Delete {
        iccid: iccid(last)?,
    })
}

fn row_of<T: Copy + Drop>(alloc: Global, items: &[T]) -> Result<Row<T>, NoMemory> {
    let mut row = Row::new(alloc);
    row.append(items)?;
    Ok(row)
}

fn run_on(alloc: Global, profiles: &[Profile], ops: &[Psmo]) -> Result<PsmoDone, Fail> {
    match Table::of(row_of(alloc, profiles)?) {
        Ok(table) => Ok(run(alloc, table, &row_of(alloc, ops)?)?),
        Err(_) => Err("a list that is no table".into()),
    }
}

#[test]
fn a_rollback_is_armed(rt: HostRuntime) -> Result<(), Fail> {
    let start = [profile(1, true)?, profile(2, false)?, profile(3, false)?];
    let second = [profile(1, false)?, profile(2, true)?, profile(3, false)?];

    let done = run_on(rt.alloc(), &start, &[disable(1)?, enable(2, true)?])?;
    assert_eq!(rt;
        done.items.as_slice(),
        [Item::Disable(0), Item::Enable(0)].as_slice()
    );
    assert_eq!(rt; done.table.rows(), second.as_slice());
    assert_eq!(rt; done.armed, Some(iccid(1)?));

    let done = run_on(rt.alloc(), &start, &[enable(2, true)?, delete(1)?])?;
    assert_eq!(rt;
        done.items.as_slice(),
        [Item::Enable(0), Item::Delete(3)].as_slice()
    );
    assert_eq!(rt; done.table.rows(), second.as_slice());
    assert_eq!(rt; done.armed, Some(iccid(1)?));
    Ok(())
}

#[test]
fn no_rollback_is_armed(rt: HostRuntime) -> Result<(), Fail> {
    let start = [profile(1, true)?, profile(2, false)?, profile(3, false)?];

    let ops = [disable(1)?, delete(1)?, enable(2, true)?];
    let done = run_on(rt.alloc(), &start, &ops)?;
    assert_eq!(rt;
        done.items.as_slice(),
        [Item::Disable(0), Item::Delete(0), Item::Enable(0)].as_slice()
    );
    assert_eq!(rt;
        done.table.rows(),
        [profile(2, true)?, profile(3, false)?].as_slice()
    );
    assert_eq!(rt; done.armed, None);

    let done = run_on(rt.alloc(), &start, &[enable(9, false)?, Psmo::List])?;
    assert_eq!(rt; done.items.as_slice(), [Item::Enable(1)].as_slice());
    assert_eq!(rt; done.table.rows(), start.as_slice());
    assert_eq!(rt; done.armed, None);
    Ok(())
}
