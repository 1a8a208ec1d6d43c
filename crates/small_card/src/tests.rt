//! What no clause says: that copies are made where there is memory.

use super::*;
use iot_bytes::{NoMemory, Row};
use sgp_values::{EimId, Iccid, Nickname, OutOfRange};
use std::alloc::Global;
use std::test::Fail;

fn iccid(last: u8) -> Result<Iccid, OutOfRange> {
    Iccid::of(&[0x98, 0x44, 0, 0, 0, 0, 0, 0, 0, last])
}

fn row_of<T: Copy + Drop>(alloc: Global, items: &[T]) -> Result<Row<T>, NoMemory> {
    let mut row = Row::new(alloc);
    row.append(items)?;
    Ok(row)
}

#[test]
fn a_body_is_copied(rt: HostRuntime) -> Result<(), Fail> {
    let ops = [Psmo::Disable { iccid: iccid(1)? }, Psmo::List];
    for body in [
        Body::Psmos(row_of(rt.alloc(), &ops)?),
        Body::Ecos(row_of(rt.alloc(), &[Eco::List])?),
    ] {
        assert_eq!(rt; body.copy(rt.alloc())?, body);
    }
    Ok(())
}

#[test]
fn a_result_is_copied(rt: HostRuntime) -> Result<(), Fail> {
    let profile = Profile {
        iccid: iccid(1)?,
        enabled: true,
        nickname: Nickname::of(b"")?,
    };
    let mut items = Row::new(rt.alloc());
    for item in [
        Item::Enable(0),
        Item::Profiles(row_of(rt.alloc(), &[profile])?),
        Item::Eims(Row::new(rt.alloc())),
    ] {
        assert!(rt; items.push(item).is_ok());
    }
    let kept = PackageResult {
        seq: 1,
        eim: EimId::of(b"e1")?,
        association: 1,
        counter: 7,
        items,
        rolled: true,
    };
    assert_eq!(rt; kept.copy(rt.alloc())?, kept);
    Ok(())
}
