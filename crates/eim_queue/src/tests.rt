//! What no clause says: that the calls succeed where there is memory, and a worked exchange.

use super::*;
use esipa_codec::{BindEnd, MessageEnd, OrderEnd, ToEim, ToIpa};
use iot_bytes::Row;
use package_codec::read_body;
use sgp_values::{Eid, EimId};
use small_card::PackageResult;
use std::alloc::Global;
use std::test::Fail;

// The operations of a package that lists the profiles.
const LISTING: [u8; 4] = [0xa4, 0x02, 0x83, 0x00];

// Gives the number that is acknowledged, 0 where none is.
fn receive(eim: &mut Eim, alloc: Global, id: EimId, seq: u32) -> u32 {
    let kept = PackageResult {
        seq,
        eim: id,
        association: 1,
        counter: 1,
        items: Row::new(alloc),
        rolled: seq > 1,
    };
    match eim.on_message(alloc, ToEim::Result(kept)) {
        MessageEnd::Reply(ToIpa::Ack { seq }) => seq,
        _ => 0,
    }
}

// Gives how many octets the package has that is fetched, 0 where none waits.
fn fetch(eim: &mut Eim, alloc: Global, eid: Eid) -> usize {
    match eim.on_message(alloc, ToEim::Poll { eid }) {
        MessageEnd::Reply(ToIpa::Package(bytes)) => bytes.len(),
        _ => 0,
    }
}

#[test]
fn an_order_is_fetched(rt: HostRuntime) -> Result<(), Fail> {
    let alloc = rt.alloc();
    let eid = Eid::of(&[7; 16])?;
    let mut eim = Eim::new(alloc, EimId::of(b"e1")?, eid);
    assert_eq!(rt; eim.bind(1, 0), BindEnd::Bound);
    assert_eq!(rt;
        eim.order(alloc, read_body(alloc, &LISTING)?),
        OrderEnd::Ordered(1)
    );
    assert_eq!(rt; fetch(&mut eim, alloc, eid), 38);
    assert_eq!(rt; eim.skip(), Some(1));
    Ok(())
}

#[test]
fn a_late_copy_leaves_the_rolled_back_result(rt: HostRuntime) -> Result<(), Fail> {
    let alloc = rt.alloc();
    let id = EimId::of(b"e1")?;
    let mut eim = Eim::new(alloc, id, Eid::of(&[7; 16])?);
    assert_eq!(rt; receive(&mut eim, alloc, id, 2), 2);
    assert_eq!(rt; receive(&mut eim, alloc, id, 1), 1);
    assert_eq!(rt; eim.records().len(), 1);
    Ok(())
}
