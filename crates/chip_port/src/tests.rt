//! What no clause says: that calls succeed where there is enough memory, and which octets each
//! planned cut leaves.

ghost use Rattle.std.specs.Prelude.{◌≤◌, is_ok};
ghost use Rattle.chip_port.specs.Rules.{HasCause, IfTold};
ghost use Rattle.chip_port.specs.Example.{Stores};

use super::*;
use iot_bytes::Row;
use std::test::Fail;

const OCTETS: usize = 12;

// Two writes, each synced, and an answer.
fn store<C: Chip>(chip: &mut C) -> Result<(), Failed>
    requires calls { 5 ≤ (C.sees chip.old).spare.calls }
    requires octets { 3 ≤ (C.sees chip.old).spare.octets }
    ensures cause { HasCause (C.sees chip.old) (C.sees chip.new) result }
    ensures told { IfTold (C.sees chip.old)
        (Stores (is_ok result) (C.sees chip.old) (C.sees chip.new)) }
{
    chip.write_at(0, &[1, 2])?;
    chip.sync()?;
    chip.write_at(1, &[3])?;
    chip.sync()?;
    chip.answer()
}

// A synced write, then two further writes and a sync.
fn script<C: Chip>(chip: &mut C) -> Result<(), &'static str> {
    chip.prepare(5, 10).map_err(|_| "memory")?;
    chip.write_at(0, &[1, 2, 3, 4]).map_err(|_| "first write")?;
    chip.sync().map_err(|_| "first sync")?;
    chip.write_at(2, &[5, 6, 7]).map_err(|_| "second write")?;
    chip.write_at(8, &[8, 9, 10]).map_err(|_| "third write")?;
    chip.sync().map_err(|_| "second sync")
}

// The first octets of a chip.
fn front<C: Chip>(chip: &mut C) -> Result<[u8; OCTETS], &'static str> {
    let mut out = [7; OCTETS];
    chip.read(0, &mut out).map_err(|_| "read")?;
    Ok(out)
}

// The first octets after the script was cut at a call and the power came back.
fn after_cut<B: Bench>(
    bench: &mut B,
    calls: u32,
    tear: Tear,
) -> Result<[u8; OCTETS], &'static str> {
    bench.plan_cut(calls, tear).map_err(|_| "memory")?;
    if script(bench).is_ok() {
        return Err("not cut");
    }
    if bench.read(0, &mut [0]).is_ok() {
        return Err("a cut chip answers");
    }
    bench.power_on().map_err(|_| "power")?;
    front(bench)
}

#[test]
fn each_tear_at_each_call(rt: HostRuntime) -> Result<(), Fail> {
    let table: [(u32, Tear, [u8; OCTETS]); 20] = [
        (0, Tear::Old, [0, 0, 0, 0, 0, 0, 0, 0, 0, 0, 0, 0]),
        (0, Tear::New, [1, 2, 3, 4, 0, 0, 0, 0, 0, 0, 0, 0]),
        (0, Tear::Half, [1, 2, 0, 0, 0, 0, 0, 0, 0, 0, 0, 0]),
        (0, Tear::Junk, [165, 165, 165, 165, 0, 0, 0, 0, 0, 0, 0, 0]),
        (1, Tear::Old, [0, 0, 0, 0, 0, 0, 0, 0, 0, 0, 0, 0]),
        (1, Tear::New, [1, 2, 3, 4, 0, 0, 0, 0, 0, 0, 0, 0]),
        (1, Tear::Half, [1, 2, 3, 4, 0, 0, 0, 0, 0, 0, 0, 0]),
        (1, Tear::Junk, [165, 165, 165, 165, 0, 0, 0, 0, 0, 0, 0, 0]),
        (2, Tear::Old, [1, 2, 3, 4, 0, 0, 0, 0, 0, 0, 0, 0]),
        (2, Tear::New, [1, 2, 5, 6, 7, 0, 0, 0, 0, 0, 0, 0]),
        (2, Tear::Half, [1, 2, 5, 4, 0, 0, 0, 0, 0, 0, 0, 0]),
        (2, Tear::Junk, [1, 2, 165, 165, 165, 0, 0, 0, 0, 0, 0, 0]),
        (3, Tear::Old, [1, 2, 3, 4, 0, 0, 0, 0, 0, 0, 0, 0]),
        (3, Tear::New, [1, 2, 5, 6, 7, 0, 0, 0, 8, 9, 10, 0]),
        (3, Tear::Half, [1, 2, 5, 6, 7, 0, 0, 0, 8, 0, 0, 0]),
        (
            3,
            Tear::Junk,
            [1, 2, 165, 165, 165, 0, 0, 0, 165, 165, 165, 0],
        ),
        (4, Tear::Old, [1, 2, 3, 4, 0, 0, 0, 0, 0, 0, 0, 0]),
        (4, Tear::New, [1, 2, 5, 6, 7, 0, 0, 0, 8, 9, 10, 0]),
        (4, Tear::Half, [1, 2, 5, 6, 7, 0, 0, 0, 8, 9, 10, 0]),
        (
            4,
            Tear::Junk,
            [1, 2, 165, 165, 165, 0, 0, 0, 165, 165, 165, 0],
        ),
    ];
    for (calls, tear, image) in table {
        let mut chip = MemChip::new(rt.alloc(), Row::new(rt.alloc())).map_err(|_| "memory")?;
        assert!(rt; after_cut(&mut chip, calls, tear)? == image);
    }
    Ok(())
}

#[test]
fn each_call_succeeds(rt: HostRuntime) -> Result<(), Fail> {
    let mut chip = MemChip::new(rt.alloc(), Row::new(rt.alloc())).map_err(|_| "memory")?;
    assert!(rt; chip.plan_cut(5, Tear::Junk).is_ok());
    script(&mut chip)?;
    chip.drop_plan();
    assert!(rt; front(&mut chip)? == [1, 2, 5, 6, 7, 0, 0, 0, 8, 9, 10, 0]);
    assert!(rt; chip.prepare(5, 3).is_ok());
    assert!(rt; store(&mut chip).is_ok());
    assert!(rt; chip.power_on().is_ok());
    assert!(rt; front(&mut chip)? == [1, 3, 5, 6, 7, 0, 0, 0, 8, 9, 10, 0]);
    Ok(())
}

#[test]
fn a_failing_call_fails_once(rt: HostRuntime) -> Result<(), Fail> {
    let mut failing = Row::new(rt.alloc());
    failing.append(&[2]).map_err(|_| "memory")?;
    let mut chip = MemChip::new(rt.alloc(), failing).map_err(|_| "memory")?;
    assert!(rt; script(&mut chip) == Err("second write"));
    assert!(rt; front(&mut chip)? == [1, 2, 3, 4, 0, 0, 0, 0, 0, 0, 0, 0]);
    script(&mut chip)?;
    assert!(rt; front(&mut chip)? == [1, 2, 5, 6, 7, 0, 0, 0, 8, 9, 10, 0]);
    Ok(())
}
