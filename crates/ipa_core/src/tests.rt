//! What no clause says: that the calls succeed where there is memory.

use super::*;
use esipa_codec::{Act, ToIpa};
use iot_bytes::Row;
use sgp_values::{Eid, EimId};
use small_card::{Answer, PackageResult, Refused};
use std::alloc::Global;
use std::test::Fail;

fn name(act: &Act) -> &str {
    match act {
        Act::Load { .. } => "load",
        Act::Remove { .. } => "remove",
        Act::Rollback => "rollback",
        Act::Ask => "ask",
        Act::Send(_) => "send",
        Act::Rest => "rest",
    }
}

// The pending results of a card that has one.
fn one_result(alloc: Global, eim: EimId) -> Result<Row<PackageResult>, Fail> {
    let mut results = Row::new(alloc);
    let kept = PackageResult {
        seq: 1,
        eim,
        association: 1,
        counter: 1,
        items: Row::new(alloc),
        rolled: false,
    };
    if results.push(kept).is_err() {
        return Err("no memory for a result".into());
    }
    Ok(results)
}

#[test]
fn each_event_has_its_act(rt: HostRuntime) -> Result<(), Fail> {
    let alloc = rt.alloc();
    let eim = EimId::of(b"e1")?;
    let mut ipa = Ipa {
        strikes: 0,
        asked: None,
    };
    assert_eq!(rt; name(&ipa.on_poll(alloc, eim, Eid::of(&[7; 16])?)?), "send");
    assert_eq!(rt; name(&ipa.on_push()), "ask");
    let package = ToIpa::Package(Row::new(alloc));
    assert_eq!(rt; name(&ipa.on_message(eim, package, true)), "load");
    let refused = Refused {
        code: 1,
        kept: 0,
        received: 0,
    };
    assert_eq!(rt;
        name(&ipa.on_answer(alloc, Answer::LoadRefused(refused))?),
        "send"
    );
    assert_eq!(rt;
        name(&ipa.on_answer(alloc, Answer::LoadRefused(refused))?),
        "rest"
    );
    let pending = Answer::Results(one_result(alloc, eim)?);
    assert_eq!(rt; name(&ipa.on_answer(alloc, pending)?), "send");
    Ok(())
}
