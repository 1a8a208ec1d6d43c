//! What no clause says: that calls succeed where there is enough memory, and what a unit that is
//! cut leaves on a chip in memory.

ghost use Rattle.std.specs.Prelude.{◌≡◌, ◌+◌, ◌≤◌, length, is_ok, OnOk, IfOk};
ghost use Rattle.chip_port.specs.Rules.{HasCause, IfTold};
ghost use Rattle.undo_journal.specs.States.{IsIdle, TakesAtMost};
ghost use Rattle.std.specs.List.{range_with_len};
ghost use Rattle.undo_journal.specs.Example.{WritesTwo};

use super::*;
use chip_port::{Bench, Chip, Failed, MemChip, Tear};
use iot_bytes::Row;
use std::alloc::Global;
use std::test::Fail;

const FIRST: u8 = 0x11;

const LAST: u8 = 0x22;

fn all_blocks(alloc: Global) -> Result<Row<u16>, &'static str>
    ensures { IfOk result (λ blocks. blocks ≡ range_with_len 0 673) }
{
    let mut blocks = Row::new(alloc);
    for block in 0..673 {
        let Ok(()) = blocks.push(block) else {
            return Err("memory");
        };
    }
    Ok(blocks)
}

fn new_chip(alloc: Global) -> Result<MemChip, &'static str> {
    MemChip::new(alloc, Row::new(alloc)).map_err(|_| "memory")
}

// Writes octets to a place, and syncs.
fn write<C: Chip>(chip: &mut C, at: u64, octets: &[u8]) -> Result<(), &'static str>
    requires { at + length octets.now ≤ 2048 }
{
    chip.prepare(2, 2_048).map_err(|_| "memory")?;
    chip.write_at(at, octets).map_err(|_| "write")?;
    chip.sync().map_err(|_| "sync")
}

// Recovers a chip, makes room for a unit, and plans a cut.
fn ready<B: Bench>(bench: &mut B, calls: u32, tear: Tear) -> Result<(), &'static str>
    ensures room { OnOk result ((682 ≤ (B.sees bench.new).spare.calls)
        × (174150 ≤ (B.sees bench.new).spare.octets)) }
    ensures idle { OnOk result (IfTold (B.sees bench.new) (IsIdle (B.sees bench.new))) }
{
    let Ok(()) = recover(bench) else {
        return Err("recovery");
    };
    let Ok(()) = bench.prepare(682, 174_150) else {
        return Err("memory");
    };
    let Ok(()) = bench.plan_cut(calls, tear) else {
        return Err("memory");
    };
    Ok(())
}

// Keeps all blocks, and writes the first and the last. Its contract is that of a whole unit.
fn unit<C: Chip>(
    chip: &mut C,
    blocks: Row<u16>,
    first: &[u8; 256],
    last: &[u8; 256],
) -> Result<(), Failed>
    requires blocks { blocks ≡ range_with_len 0 673 }
    requires calls { 682 ≤ (C.sees chip.old).spare.calls }
    requires octets { 174150 ≤ (C.sees chip.old).spare.octets }
    requires idle { IfTold (C.sees chip.old) (IsIdle (C.sees chip.old)) }
    ensures cause { HasCause (C.sees chip.old) (C.sees chip.new) result }
    ensures spare { TakesAtMost 682 174150 (C.sees chip.old) (C.sees chip.new) }
    ensures told { IfTold (C.sees chip.old)
        (WritesTwo first.now last.now (is_ok result) (C.sees chip.old) (C.sees chip.new)) }
{
    let recorded = keep_old(chip, blocks)?;
    let opened = recorded.open_gate(chip)?;
    opened.write_home(chip, 0, first)?;
    opened.write_home(chip, 672, last)?;
    opened.close_gate(chip)
}

// Whether the home is zeros but for its first and its last block.
fn home_is<C: Chip>(chip: &mut C, first: u8, last: u8) -> Result<bool, &'static str> {
    for block in 0..673u64 {
        let mut octets = [7; BLOCK];
        chip.read(HOME + 256 * block, &mut octets)
            .map_err(|_| "read")?;
        let want = match block {
            0 => first,
            672 => last,
            _ => 0,
        };
        if octets != [want; BLOCK] {
            return Ok(false);
        }
    }
    Ok(true)
}

// Cuts a unit at a call, and recovers: whether the unit ended, and whether its blocks are there.
fn after_cut(alloc: Global, calls: u32, tear: Tear) -> Result<(bool, bool), &'static str> {
    let mut chip = new_chip(alloc)?;
    write(&mut chip, 0, &MAGIC)?;
    ready(&mut chip, calls, tear)?;
    let blocks = all_blocks(alloc)?;
    let ended = unit(&mut chip, blocks, &[FIRST; 256], &[LAST; 256]).is_ok();
    chip.drop_plan();
    chip.power_on().map_err(|_| "power")?;
    recover(&mut chip).map_err(|_| "second recovery")?;
    if home_is(&mut chip, 0, 0)? {
        Ok((ended, false))
    } else if home_is(&mut chip, FIRST, LAST)? {
        Ok((ended, true))
    } else {
        Err("neither the old nor the new home")
    }
}

// The next call to cut at: each of the first and of the last ones, and each fiftieth between.
fn next(calls: u32) -> u32 {
    if calls < 15 || calls >= 1_350 {
        calls.saturating_add(1)
    } else {
        (calls / 50 * 50).saturating_add(50)
    }
}

#[test]
fn a_cut_unit_is_there_whole_or_not_at_all(rt: HostRuntime) -> Result<(), Fail> {
    for tear in [Tear::Old, Tear::New, Tear::Half, Tear::Junk] {
        let mut calls = 0;
        for _ in 0..60 {
            let (ended, written) = after_cut(rt.alloc(), calls, tear)?;
            assert!(rt; !ended || written, "{calls}");
            assert!(rt; calls > 0 || !written);
            if ended {
                break;
            }
            calls = next(calls);
        }
        assert_eq!(rt; calls, 1_355);
    }
    Ok(())
}

#[test]
fn a_new_chip_is_foreign(rt: HostRuntime) -> Result<(), Fail> {
    let mut chip = new_chip(rt.alloc())?;
    assert!(rt; recover(&mut chip) == Err(RecoverEnd::Foreign));
    assert!(rt; home_is(&mut chip, 0, 0)?);
    Ok(())
}

#[test]
fn directories_behind_an_open_and_a_closed_gate(rt: HostRuntime) -> Result<(), Fail> {
    let table: [([u8; 6], bool); 5] = [
        ([0, 0, 0, 5, 0, 6], false),
        ([0, 2, 0, 5, 0, 5], false),
        ([0, 2, 0, 5, 0, 6], true),
        ([0, 2, 0, 5, 2, 161], false),
        ([2, 162, 0, 5, 0, 6], false),
    ];
    for (directory, fits) in table {
        let mut chip = new_chip(rt.alloc())?;
        write(&mut chip, 0, &MAGIC)?;
        write(&mut chip, 512, &directory)?;
        assert!(rt; recover(&mut chip).is_ok());
        write(&mut chip, GATE, &[0xA5])?;
        let end = recover(&mut chip);
        assert!(rt;
            end == if fits {
                Ok(())
            } else {
                Err(RecoverEnd::Foreign)
            }
        );
    }
    Ok(())
}
