//! What no clause says: the octets of a run that ends before its first frame.

use super::*;
use iot_bytes::{MemSink, Row};
use std::alloc::Global;
use std::test::Fail;

// The frame of the stop record with status 4 and number 0.
const STOPPED: [u8; 12] = [0, 0, 0, 8, 0xad, 6, 0x80, 1, 4, 0x81, 1, 0];

/// Whether the run ends with the status, and so many octets of the stop record are sent.
fn ends(alloc: Global, stop: PartStop, room: usize, status: u8, sent: usize) -> Result<bool, Fail> {
    let mut sink = MemSink::new(alloc, room, 20, Row::new(alloc))?;
    let end = end_unopened(alloc, stop, &mut sink);
    let octets = STOPPED.get(..sent).unwrap_or(&[]);
    Ok(end.status() == status && sink.taken() == octets)
}

#[test]
fn runs_that_never_open(rt: HostRuntime) -> Result<(), Fail> {
    let alloc = rt.alloc();
    assert!(rt; ends(alloc, PartStop::ChipFault, 20, 4, 12)?);
    assert!(rt; ends(alloc, PartStop::ChipFault, 3, 3, 3)?);
    assert!(rt; ends(alloc, PartStop::NoMemory, 20, 6, 0)?);
    Ok(())
}
