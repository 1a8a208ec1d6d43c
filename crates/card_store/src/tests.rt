//! What no clause says: that calls succeed where there is enough memory, which octets a new card
//! has, which images stand for no card, what a commit that is cut leaves, and where results stand.

use super::*;
use chip_port::{Chip, MemChip};
use iot_bytes::Row;
use std::alloc::Global;
use std::test::Fail;
use undo_journal::{HOME, MAGIC};

mod broken;
mod new_card;
mod units;

const EID: [u8; 16] = [0, 1, 2, 3, 4, 5, 6, 7, 8, 9, 10, 11, 12, 13, 14, 15];

const A: [u8; 10] = [0x98, 0x44, 0, 0, 0, 0, 0, 0, 0, 1];

const B: [u8; 10] = [0x98, 0x44, 0, 0, 0, 0, 0, 0, 0, 2];

const HOME_LEN: usize = 172_288;

/// Where slots begin in the home.
const PROFILE: usize = 256;

const EIM: usize = 2_304;

const RESULT: usize = 6_400;

const RESULT_SLOT: usize = 20_736;

// The result with this number: one enable that was done.
fn kept(seq: u8) -> [u8; 26] {
    [
        0, 0, 0, 22, 0x30, 0x14, 0x80, 1, seq, 0x81, 2, b'e', b'1', 0x82, 1, 1, 0x83, 1, 1, 0xa4,
        5, 0xa0, 3, 0x80, 1, 0,
    ]
}

// Zeros until the row has so many octets.
fn fill(out: &mut Row<u8>, until: usize) -> Result<(), Fail> {
    for _ in out.len()..until {
        out.append(&[0])?;
    }
    Ok(())
}

// A slot for each of these numbers, free where it is 0, and the rest of the home.
fn put_slots(out: &mut Row<u8>, slots: &[u8]) -> Result<(), Fail> {
    fill(out, RESULT)?;
    for seq in slots {
        let end = out.len().saturating_add(RESULT_SLOT);
        if *seq > 0 {
            out.append(&kept(*seq))?;
        }
        fill(out, end)?;
    }
    fill(out, HOME_LEN)
}

fn put_eims(out: &mut Row<u8>, counter: u8) -> Result<(), Fail> {
    fill(out, EIM)?;
    out.append(&[2, b'e', b'1'])?;
    fill(out, EIM + 129)?;
    out.append(&[1, b'/'])?;
    fill(out, EIM + 258)?;
    out.append(&[1, 7])?;
    fill(out, EIM + 387)?;
    out.append(&[0, 0, 0, 0, 0, 0, 0, counter, 0, 0, 0, 1])?;
    fill(out, EIM + 512)?;
    out.append(&[2, b'e', b'2'])?;
    fill(out, EIM + 512 + 395)?;
    out.append(&[0, 0, 0, 2])?;
    Ok(())
}

// The home of a card with two profiles, two eIMs and the results 1 and 2, armed. `after` is 0, or 1
// after a package of the first eIM, which enabled the other profile: result 3.
fn full_home(alloc: Global, after: u8) -> Result<Row<u8>, Fail> {
    let (first, second) = if after == 0 { (1, 0) } else { (0, 1) };
    let mut out = Row::new(alloc);
    out.append(&[1])?;
    out.append(&EID)?;
    out.append(&[2, 2, 0, 0, 0, 3, 0, 0, 0, 3 + after % 2, 1])?;
    out.append(if after == 0 { &B } else { &A })?;
    out.append(&[0, 0, 0, 2 + after % 2])?;
    fill(&mut out, PROFILE)?;
    out.append(&A)?;
    out.append(&[first, 2, b'h', b'i'])?;
    fill(&mut out, PROFILE + 128)?;
    out.append(&B)?;
    out.append(&[second])?;
    put_eims(&mut out, 5 + after % 2)?;
    let slots = if after == 0 { [1, 2, 0] } else { [1, 2, 3] };
    put_slots(&mut out, &slots)?;
    Ok(out)
}

// The home of a card with results in these slots, and no more.
fn home_of(alloc: Global, slots: &[u8]) -> Result<Row<u8>, Fail> {
    let mut out = Row::new(alloc);
    out.append(&[1])?;
    out.append(&EID)?;
    out.append(&[0, 0, 0, 0, 0, 1, 0, 0, 0, 9, 0])?;
    put_slots(&mut out, slots)?;
    Ok(out)
}

// Writes a few octets to a place, and syncs.
fn put<C: Chip>(chip: &mut C, at: u64, octets: &[u8]) -> Result<(), &'static str> {
    if at > 346_368 || octets.len() > 256 {
        return Err("behind the chip");
    }
    chip.prepare(2, 256).map_err(|_| "memory")?;
    chip.write_at(at, octets).map_err(|_| "write")?;
    chip.sync().map_err(|_| "sync")
}

// A chip with the magic, a closed gate and this home.
fn chip_of(alloc: Global, home: &[u8]) -> Result<MemChip, &'static str> {
    let mut chip = MemChip::new(alloc, Row::new(alloc)).map_err(|_| "memory")?;
    if home.len() != HOME_LEN {
        return Err("no home");
    }
    put(&mut chip, 0, &MAGIC)?;
    chip.prepare(2, 172_288).map_err(|_| "memory")?;
    chip.write_at(HOME, home).map_err(|_| "write")?;
    chip.sync().map_err(|_| "sync")?;
    Ok(chip)
}

// Whether a load tells that no card stands on the chip.
fn is_unrecognised<C: Chip>(alloc: Global, chip: &mut C) -> bool {
    match load(alloc, chip) {
        Err(LoadEnd::Unrecognised) => true,
        Err(_) | Ok(_) => false,
    }
}
