//! Images that stand for no card.

use super::*;
use std::process::Abort;
use undo_journal::GATE;

/// Octets of the home that no card has, one row a rule, with the place of the first.
const HEADS: [(u64, &[u8]); 13] = [
    (0, &[2]),
    (17, &[1]),
    (17, &[17]),
    (18, &[1]),
    (18, &[9]),
    (19, &[0, 0, 0, 2]),
    (23, &[0, 0, 0, 2]),
    (23, &[255, 255, 255, 255]),
    (27, &[0]),
    (27, &[2]),
    (28, &[0]),
    (38, &[0, 0, 0, 3]),
    (42, &[1]),
];

const PROFILES: [(u64, &[u8]); 8] = [
    (266, &[2]),
    (267, &[65]),
    (267, &[1]),
    (268, &[255]),
    (383, &[1]),
    (384, &A),
    (394, &[1]),
    (512, &[1]),
];

const EIMS: [(u64, &[u8]); 15] = [
    (2_304, &[0, 0, 0]),
    (2_304, &[129]),
    (2_305, b" "),
    (2_307, b"1"),
    (2_433, &[129]),
    (2_433, &[0]),
    (2_434, b"#"),
    (2_562, &[129]),
    (2_562, &[0]),
    (2_691, &[128]),
    (2_699, &[0, 0, 0, 0]),
    (2_699, &[0, 0, 0, 2]),
    (2_815, &[1]),
    (2_817, b"e1"),
    (3_328, &[1]),
];

/// The result 2, marked.
const MARKED: [u8; 28] = [
    0, 0, 0, 24, 0x30, 0x16, 0x80, 1, 2, 0x81, 2, b'e', b'1', 0x82, 1, 1, 0x83, 1, 1, 0xa4, 5,
    0xa0, 3, 0x80, 1, 0, 0x85, 0,
];

const RESULTS: [(u64, &[u8]); 9] = [
    (6_400, &[0, 0, 0, 21]),
    (6_400, &[0, 0, 80, 252]),
    (6_404, &[0x31]),
    (6_408, &[0]),
    (6_408, &[2]),
    (6_408, &[3]),
    (27_136, &[0, 0, 0, 0]),
    (27_136, &MARKED),
    (27_144, &[1]),
];

/// On a card without entries, where no rollback is armed.
const EMPTY: [(u64, &[u8]); 4] = [
    (19, &[0, 0, 0, 0]),
    (23, &[0, 0, 0, 0]),
    (28, &[1]),
    (41, &[1]),
];

// Each of these octets at its place in the home leaves an image of no card; without it there is
// one.
fn none_loads(
    rt: &impl Abort,
    alloc: Global,
    home: &[u8],
    faults: &[(u64, &[u8])],
) -> Result<(), Fail> {
    let mut chip = chip_of(alloc, home)?;
    for (at, octets) in faults {
        put(&mut chip, at.saturating_add(HOME), octets)?;
        assert!(rt; is_unrecognised(alloc, &mut chip), "{octets:?} at {at}");
        let from = usize::try_from(*at).unwrap_or(0);
        let before = home.get(from..from.saturating_add(octets.len()));
        put(&mut chip, at.saturating_add(HOME), before.unwrap_or(&[]))?;
    }
    assert!(rt; load(alloc, &mut chip).is_ok());
    Ok(())
}

#[test]
fn homes_of_no_card(rt: HostRuntime) -> Result<(), Fail> {
    let alloc = rt.alloc();
    let full = full_home(alloc, 0)?;
    none_loads(&rt, alloc, full.as_slice(), &HEADS)?;
    none_loads(&rt, alloc, full.as_slice(), &PROFILES)?;
    none_loads(&rt, alloc, full.as_slice(), &EIMS)?;
    none_loads(&rt, alloc, full.as_slice(), &RESULTS)?;
    none_loads(&rt, alloc, home_of(alloc, &[])?.as_slice(), &EMPTY)
}

/// Octets at the directory, and whether it is well formed.
const DIRECTORIES: [([u8; 6], bool); 5] = [
    ([0, 1, 0, 42, 0, 0], true),
    ([0, 0, 0, 5, 0, 6], false),
    ([0, 2, 0, 5, 0, 5], false),
    ([0, 2, 0, 5, 2, 161], false),
    ([2, 162, 0, 5, 0, 6], false),
];

#[test]
fn images_without_a_home(rt: HostRuntime) -> Result<(), Fail> {
    let alloc = rt.alloc();
    let full = full_home(alloc, 0)?;
    let mut chip = chip_of(alloc, full.as_slice())?;
    assert!(rt; load(alloc, &mut chip).is_ok());
    put(&mut chip, 7, b".")?;
    assert!(rt; is_unrecognised(alloc, &mut chip));
    for (directory, fits) in DIRECTORIES {
        let mut chip = chip_of(alloc, full.as_slice())?;
        put(&mut chip, 512, &directory)?;
        put(&mut chip, GATE, &[0xA5])?;
        assert!(rt; is_unrecognised(alloc, &mut chip) != fits);
    }
    Ok(())
}
