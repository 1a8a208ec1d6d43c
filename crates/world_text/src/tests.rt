use super::*;
use esipa_codec::{BindEnd, MessageEnd, OrderEnd, ToIpa};
use iot_bytes::{NoMemory, Row};
use modem_bank::{Modem, PlainModem, SplitModem};
use sgp_values::{EimId, Iccid};
use small_card::{Answer, Item, PackageResult, Refused};
use std::alloc::Global;
use std::test::Fail;

fn loaded(alloc: Global) -> Result<PackageResult, Fail> {
    let mut items = Row::new(alloc);
    items.push(Item::Enable(0))?;
    Ok(PackageResult {
        seq: 1,
        eim: EimId::of(b"e1")?,
        association: 1,
        counter: 1,
        items,
        rolled: false,
    })
}

fn put_replies(out: &mut Row<u8>, loaded: PackageResult) -> Result<(), NoMemory> {
    let refused = Refused {
        code: 6,
        kept: 12,
        received: 7,
    };
    for (removed, answer) in &[
        (None, Answer::Loaded(loaded)),
        (None, Answer::LoadRefused(refused)),
        (None, Answer::RolledBack { seq: 2 }),
        (None, Answer::NotPermitted),
        (Some(1), Answer::Removed),
        (Some(3), Answer::Absent),
        (None, Answer::Associated { association: 17 }),
        (None, Answer::InitialRefused { code: 2 }),
        (None, Answer::Malformed),
    ] {
        put_said(out, *removed, answer)?;
        out.append(b"; ")?;
    }
    Ok(())
}

fn put_ends(out: &mut Row<u8>, alloc: Global) -> Result<(), NoMemory> {
    put_bind(out, BindEnd::Bound)?;
    put_bind(out, BindEnd::Low(2))?;
    for end in [
        OrderEnd::Ordered(1),
        OrderEnd::Unbound,
        OrderEnd::CounterSpent,
    ] {
        put_order(out, end)?;
        out.append(b"; ")?;
    }
    put_skip(out, Some(4))?;
    put_skip(out, None)?;
    for message in [
        ToIpa::Package(Row::new(alloc)),
        ToIpa::Nothing,
        ToIpa::Ack { seq: 5 },
    ] {
        out.append(b"; ")?;
        put_answer(out, 9, &MessageEnd::Reply(message))?;
    }
    put_answer(out, 9, &MessageEnd::Silent)
}

fn put_places(out: &mut Row<u8>) -> Result<(), NoMemory> {
    put_sent(out, 9, 2)?;
    put_also_sent(out, 1, 1)?;
    put_also_sent(out, 1, 0)?;
    put_pushed(out, 3, 1)?;
    put_pushed(out, 3, 0)
}

#[test]
fn each_text_is_put(rt: HostRuntime) -> Result<(), Fail> {
    let alloc = rt.alloc();
    let mut out = Row::new(alloc);
    put_replies(&mut out, loaded(alloc)?)?;
    put_ends(&mut out, alloc)?;
    put_places(&mut out)?;
    put_device(&mut out, 3)?;
    put_strikes(&mut out, 2)?;
    let mut split = SplitModem::new();
    split.refresh(Some(Iccid::of(&[0x98, 0x44, 0, 0, 0, 0, 0, 0, 0, 0x0a])?));
    let mut modems: Vec<Box<dyn Modem>> = Vec::new(alloc);
    put_modems(&mut out, modems.as_slice())?;
    modems.push(Box::new(alloc, PlainModem::new())?)?;
    modems.push(Box::new(alloc, split)?)?;
    put_modems(&mut out, modems.as_slice())?;
    let expected: &[u8] = b"loaded 1 enable=0; refused 6 kept 12 received 7; rolled 2; \
        not permitted; removed 1; absent 3; associated 17; initial refused 2; ; boundbind low 2\
        ordered 1; unbound; counter spent; skipped 4none waiting; reply 9 package; \
        reply 9 nothing; reply 9 ack 5silentsent 9 10 sent 1sent 3nothing pendingdevice 3\
        strikes 2modemsmodems -:0 9844000000000000000a:1";
    assert!(rt; out.as_slice() == expected);
    Ok(())
}
