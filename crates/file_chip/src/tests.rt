//! The edge that no contract reaches: what a file keeps.

use super::FileChip;
use chip_port::{Bench, Chip, Failed, NoMemory, Tear};
use std::fs::{self, OpenFile};
use std::io::{Read, Seek, Write};
use std::test::Fail;

// Writes octets at a place, makes them last, and marks an answer.
fn keep<C: Chip>(chip: &mut C, at: u64, bytes: &[u8; 4]) -> Result<(), &'static str> {
    if at > 1_000 || chip.prepare(3, 4).is_err() {
        return Err("room");
    }
    chip.write_at(at, bytes).map_err(|_| "write")?;
    chip.sync().map_err(|_| "sync")?;
    chip.answer().map_err(|_| "answer")
}

// The first eight octets.
fn front<C: Chip>(chip: &mut C) -> Result<[u8; 8], Failed> {
    let mut out = [7; 8];
    chip.read(0, &mut out)?;
    Ok(out)
}

// Whether a call of each kind fails.
fn fails<B: Bench>(chip: &mut B) -> bool {
    front(chip).is_err() && keep(chip, 0, &[1; 4]) == Err("write") && chip.power_on().is_err()
}

#[test]
fn octets_outlive_the_chip(rt: HostRuntime) -> Result<(), Fail> {
    let mut first = FileChip::at(&rt, "kept");
    assert_eq!(rt; front(&mut first).map_err(|_| "a new file")?, [0; 8]);
    keep(&mut first, 2, &[1, 2, 3, 4])?;
    assert_eq!(rt;
        front(&mut first).map_err(|_| "read")?,
        [0, 0, 1, 2, 3, 4, 0, 0]
    );
    assert!(rt; first.plan_cut(0, Tear::Junk).is_ok());
    keep(&mut first, 4, &[5, 6, 7, 8])?;
    first.drop_plan();
    assert!(rt; first.power_on().is_ok());
    let mut second = FileChip::at(&rt, "kept");
    assert_eq!(rt;
        front(&mut second).map_err(|_| "read again")?,
        [0, 0, 1, 2, 5, 6, 7, 8]
    );
    // The file holds what was written, and no more.
    assert_eq!(rt;
        fs::read(&rt, "kept")?.as_slice(),
        [0, 0, 1, 2, 5, 6, 7, 8].as_slice()
    );
    Ok(())
}

#[test]
fn a_short_file_is_filled_up_with_zeros(rt: HostRuntime) -> Result<(), Fail> {
    fs::write(&rt, "short", "abc")?;
    let mut chip = FileChip::at(&rt, "short");
    assert_eq!(rt;
        front(&mut chip).map_err(|_| "read")?,
        [97, 98, 99, 0, 0, 0, 0, 0]
    );
    Ok(())
}

#[test]
fn no_call_succeeds_without_the_file(rt: HostRuntime) {
    for path in ["no/such/folder", "", "."] {
        let mut chip = FileChip::at(&rt, path);
        assert!(rt; fails(&mut chip), "at {path}");
    }
}
