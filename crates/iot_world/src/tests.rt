//! A world over boxed modems, stepped line by line without a source or a sink.

ghost use Rattle.chip_port.specs.Rules.{IfTold};
ghost use Rattle.euicc_core.specs.Steps.{IsLitOn};

use super::*;
use chip_port::{Bench, MemChip};
use iot_bytes::Row;
use iot_schedule::{read_device, read_step};
use modem_bank::{Modem, PlainModem, SplitModem};
use std::alloc::Global;
use std::test::Fail;

const DEVICE: &str = "device 000102030405060708090a0b0c0d0e0f -98440000000000000001% \
    -98440000000000000002%";

/// What is printed for the lines of the test, one text behind the other.
const PRINTED: &str = "eim okassociated 1boundordered 1sent 0reply 0 packageloaded 1 enable=0\
    modems 98440000000000000002:1 98440000000000000002:1detached";

fn two_modems(alloc: Global) -> Result<Vec<Box<dyn Modem>>, Fail> {
    let mut modems: Vec<Box<dyn Modem>> = Vec::new(alloc);
    modems.push(Box::new(alloc, PlainModem::new())?)?;
    modems.push(Box::new(alloc, SplitModem::new())?)?;
    Ok(modems)
}

fn step_line<B: Bench>(
    alloc: Global,
    world: &mut World,
    line: &str,
    bench: &mut B,
    modems: &mut Vec<Box<dyn Modem>>,
    out: &mut Row<u8>,
) -> Result<(), Fail>
    requires { IfTold (B.sees bench.old) (IsLitOn world.old.card (B.sees bench.old)) }
    ensures { IfTold (B.sees bench.new) (IsLitOn world.new.card (B.sees bench.new)) }
{
    let line = read_step(alloc, line.as_bytes())?;
    world.step(alloc, line, bench, modems, out)?;
    Ok(())
}

fn step_three<B: Bench>(
    alloc: Global,
    world: &mut World,
    lines: [&str; 3],
    bench: &mut B,
    modems: &mut Vec<Box<dyn Modem>>,
    out: &mut Row<u8>,
) -> Result<(), Fail>
    requires { IfTold (B.sees bench.old) (IsLitOn world.old.card (B.sees bench.old)) }
    ensures { IfTold (B.sees bench.new) (IsLitOn world.new.card (B.sees bench.new)) }
{
    step_line(alloc, world, lines[0], bench, modems, out)?;
    step_line(alloc, world, lines[1], bench, modems, out)?;
    step_line(alloc, world, lines[2], bench, modems, out)
}

/// A package enables a profile, the modems hear of it, and one goes.
fn step_all<B: Bench>(
    alloc: Global,
    world: &mut World,
    bench: &mut B,
    modems: &mut Vec<Box<dyn Modem>>,
    out: &mut Row<u8>,
) -> Result<(), Fail>
    requires { IfTold (B.sees bench.old) (IsLitOn world.old.card (B.sees bench.old)) }
    ensures { IfTold (B.sees bench.new) (IsLitOn world.new.card (B.sees bench.new)) }
{
    let bound = ["eim e1", "initial e1 @ #", "bind e1 1 0"];
    step_three(alloc, world, bound, bench, modems, out)?;
    let sent = ["order e1 enable:98440000000000000002", "poll e1", "up 0"];
    step_three(alloc, world, sent, bench, modems, out)?;
    let heard = ["down 0", "modems", "detach 0"];
    step_three(alloc, world, heard, bench, modems, out)
}

#[test]
fn boxed_modems_are_told(rt: HostRuntime) -> Result<(), Fail> {
    let alloc = rt.alloc();
    let device = read_device(alloc, DEVICE.as_bytes())?;
    let mut chip = MemChip::new(alloc, Row::new(alloc))?;
    let mut modems = two_modems(alloc)?;
    let mut world = World::start(alloc, device, &mut chip, &mut modems)?;
    let mut out = Row::new(alloc);
    step_all(alloc, &mut world, &mut chip, &mut modems, &mut out)?;
    assert!(rt; out.as_slice() == PRINTED.as_bytes());
    assert_eq!(rt; modems.len(), 1);
    assert_eq!(rt; modems[0].refreshes(), 1);
    Ok(())
}
