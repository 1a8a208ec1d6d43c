//! Settling over chips that fail or are cut, and over a chip without a card.

use super::*;
use chip_port::{Bench, Tear};

/// The calls of a personalisation.
const MAKING: u64 = 8;

/// How settling ends.
#[derive(Clone, Copy, Debug, PartialEq, Eq)]
enum End {
    Lit,
    Spent,
    Unrecognised,
    NoMemory,
}

/// Whether a card stands on the bench, how many calls fail there from the next one on, after how
/// many calls a cut is planned, how many tries there are beside the first, and how it ends.
const CASES: [(bool, u64, Option<u32>, u8, End); 12] = [
    (true, 0, None, 0, End::Lit),
    (true, 1, None, 0, End::Spent),
    (true, 1, None, 1, End::Lit),
    (true, 2, None, 1, End::Spent),
    (true, 2, None, 2, End::Lit),
    (true, 0, Some(0), 0, End::Spent),
    (true, 0, Some(0), 1, End::Lit),
    (true, 0, Some(675), 0, End::Spent), // The answer to reset is the cut.
    (true, 0, Some(676), 0, End::Lit),
    (false, 0, None, 0, End::Unrecognised),
    (false, 1, None, 0, End::Spent),
    (false, 1, None, 1, End::Unrecognised),
];

fn end_of(end: SettleEnd) -> End {
    match end {
        SettleEnd::Lit(_) => End::Lit,
        SettleEnd::Spent => End::Spent,
        SettleEnd::Unrecognised => End::Unrecognised,
        SettleEnd::NoMemory => End::NoMemory,
    }
}

// A bench with a card or without one, of which so many calls fail from the next one on.
fn bench(alloc: Global, made: bool, failing: u64) -> Result<MemChip, Fail> {
    let mut calls = Row::new(alloc);
    for call in 0..failing {
        let before = if made { MAKING } else { 0 };
        calls.append(&[before.saturating_add(call)])?;
    }
    let mut chip = MemChip::new(alloc, calls)?;
    if made && EuiccCard::personalise(alloc, &mut chip, Eid::of(&EID)?, table(alloc)?).is_err() {
        return Err("no card was made".into());
    }
    Ok(chip)
}

#[test]
fn settling_over_faults(rt: HostRuntime) -> Result<(), Fail> {
    for (made, failing, cut, again, end) in CASES {
        let mut chip = bench(rt.alloc(), made, failing)?;
        if let Some(calls) = cut {
            chip.plan_cut(calls, Tear::Junk).map_err(|_| "memory")?;
        }
        let ended = EuiccCard::settle(rt.alloc(), &mut chip, 1 + u32::from(again));
        assert_eq!(rt;
            end_of(ended),
            end,
            "{failing} calls fail, {cut:?}, {again} more tries"
        );
    }
    Ok(())
}
