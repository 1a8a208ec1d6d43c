use super::*;
use iot_bytes::Row;
use sgp_values::{Address, EimId, Iccid, Key, Nickname};
use small_card::{EimEntry, Item, PackageResult, Profile, Refused};
use std::alloc::Global;
use std::test::Fail;

fn pending(alloc: Global, seq: u32, rolled: bool) -> Result<PackageResult, Fail> {
    Ok(PackageResult {
        seq,
        eim: EimId::of(b"e2")?,
        association: 2,
        counter: 1,
        items: Row::new(alloc),
        rolled,
    })
}

#[test]
fn items_and_refusals(rt: HostRuntime) -> Result<(), Fail> {
    let alloc = rt.alloc();
    let mut out = Row::new(alloc);
    let (code, association) = (0, 17);
    put_items(
        &mut out,
        &[
            Item::Enable(2),
            Item::Disable(1),
            Item::Delete(3),
            Item::Profiles(Row::new(alloc)),
            Item::Add { code, association },
            Item::Update(1),
            Item::Dropped(2),
            Item::Eims(Row::new(alloc)),
        ],
    )?;
    for code in [5, 6] {
        out.append(b"; ")?;
        put_refused(
            &mut out,
            &Refused {
                code,
                kept: 12,
                received: 7,
            },
        )?;
    }
    let expected: &[u8] = b" enable=2 disable=1 delete=3 profiles=0 add=0:17 update=1 drop=2 \
        eims=0; refused 5; refused 6 kept 12 received 7";
    assert!(rt; out.as_slice() == expected);
    Ok(())
}

#[test]
fn card_and_records(rt: HostRuntime) -> Result<(), Fail> {
    let alloc = rt.alloc();
    let mut out = Row::new(alloc);
    let profile = Profile {
        iccid: Iccid::of(&[0x98, 0x44, 0, 0, 0, 0, 0, 0, 0, 0x0a])?,
        enabled: true,
        nickname: Nickname::of(b"home")?,
    };
    let eim = EimEntry {
        id: EimId::of(b"e1")?,
        address: Address::of(b"")?,
        key: Key::of(b"")?,
        counter: 9,
        association: 1,
    };
    let results = [pending(alloc, 3, true)?, pending(alloc, 4, false)?];
    put_card(&mut out, &[profile], &[eim], &results)?;
    out.append(b"; ")?;
    put_kept(&mut out, &results)?;
    let expected: &[u8] = b"profiles +9844000000000000000a eims e1/1/9 pending 3/e2/2/1r 4/e2/2/1; \
        kept 2/1/3r 2/1/4";
    assert!(rt; out.as_slice() == expected);
    Ok(())
}
