//! Units that are cut, one that changes nothing, and the slots that results take.

ghost use Rattle.std.specs.Prelude.{IfOk};
ghost use Rattle.small_card.specs.Valid.{IsValid};
ghost use Rattle.home_codec.specs.FullCards.{full_card};

use super::*;
use chip_port::{Bench, Tear};
use home_codec::{home_octets, read_card};

/// The calls of a load: a sync, a read of the magic and the gate, and one of each home block.
const LOAD: u32 = 675;

/// The calls of staging: the fronts of the slots, the blocks of the fields, and one of each slot.
const STAGE: u32 = 41;

/// The calls of a commit of four blocks: the directory; each block read and copied; a sync; the
/// gate opened, and a sync; the four blocks; a sync; the gate closed, and a sync.
const COMMIT: u32 = 19;

// The card of a home.
fn card_of(alloc: Global, home: &[u8]) -> Result<Card, Fail>
    ensures valid { IfOk result (λ card. IsValid (full_card card)) }
{
    match read_card(alloc, home) {
        Ok(card) => Ok(card),
        Err(_) => Err("no home".into()),
    }
}

// Puts this card in place of the one that stands on the chip, and tells whether the commit ended
// well.
fn replace<C: Chip>(alloc: Global, chip: &mut C, new: Card) -> Result<bool, Fail>
    requires valid { IsValid (full_card new) }
{
    let Ok(old) = load(alloc, chip) else {
        return Err("no card stands".into());
    };
    let Ok(staged) = stage(alloc, chip, &old, new) else {
        return Err("nothing is staged".into());
    };
    Ok(staged.commit(chip).is_ok())
}

// The home of the card that stands on the chip, its results in the first slots.
fn home_on<C: Chip>(alloc: Global, chip: &mut C) -> Result<Row<u8>, Fail> {
    match load(alloc, chip) {
        Ok(card) => Ok(home_octets(alloc, &card)?),
        Err(_) => Err("no card stands".into()),
    }
}

// Plans a cut that comes so many calls into the commit of the next unit.
fn plan<B: Bench>(bench: &mut B, calls: u32, tear: Tear) -> Result<(), Fail> {
    let all = (LOAD + STAGE).saturating_add(calls);
    bench.plan_cut(all, tear).map_err(|_| "memory".into())
}

// Whether the home on the chip has these octets.
fn home_is<C: Chip>(chip: &mut C, home: &[u8]) -> Result<bool, Fail> {
    for block in 0..673 {
        let mut octets = [0; 256];
        let place = 256 * block;
        chip.read(HOME + place as u64, &mut octets)
            .map_err(|_| "read")?;
        if home.get(place..place + 256) != Some(&octets) {
            return Ok(false);
        }
    }
    Ok(true)
}

// Cuts a unit so many calls into its commit, brings the power back, and loads the card that stands:
// whether the commit ended well.
fn cut<B: Bench>(
    alloc: Global,
    bench: &mut B,
    new: Card,
    calls: u32,
    tear: Tear,
) -> Result<bool, Fail>
    requires valid { IsValid (full_card new) }
{
    plan(bench, calls, tear)?;
    let ended = replace(alloc, bench, new)?;
    bench.drop_plan();
    bench.power_on().map_err(|_| "power")?;
    match load(alloc, bench) {
        Ok(_) => Ok(ended),
        Err(_) => Err("no card stands".into()),
    }
}

/// Each tear, and the first call of the commit at which it leaves the new card: the gate must be
/// closed on the chip, and A5 in it is open.
const TEARS: [(Tear, u32); 4] = [
    (Tear::Old, COMMIT),
    (Tear::New, COMMIT - 2),
    (Tear::Half, COMMIT - 1),
    (Tear::Junk, COMMIT),
];

// Whether a commit that is cut so many calls in leaves the new home, or else the old one, and ends
// well exactly where it is whole.
fn leaves(
    alloc: Global,
    homes: &[Row<u8>; 2],
    calls: u32,
    tear: Tear,
    is_new: bool,
) -> Result<bool, Fail> {
    let [before, after] = homes;
    let mut chip = chip_of(alloc, before.as_slice())?;
    let new = card_of(alloc, after.as_slice())?;
    let ended = cut(alloc, &mut chip, new, calls, tear)?;
    let stands = if is_new {
        home_is(&mut chip, after.as_slice())?
    } else {
        home_is(&mut chip, before.as_slice())?
    };
    Ok(stands && ended == (calls == COMMIT))
}

#[test]
fn a_commit_that_is_cut(rt: HostRuntime) -> Result<(), Fail> {
    let alloc = rt.alloc();
    let homes = [full_home(alloc, 0)?, full_home(alloc, 1)?];
    for (tear, first) in TEARS {
        for calls in 0..=COMMIT {
            let left = leaves(alloc, &homes, calls, tear, calls >= first)?;
            assert!(rt; left, "{tear:?} at {calls}");
        }
    }
    Ok(())
}

#[test]
fn a_commit_of_no_block(rt: HostRuntime) -> Result<(), Fail> {
    let alloc = rt.alloc();
    let home = full_home(alloc, 0)?;
    let mut chip = chip_of(alloc, home.as_slice())?;
    plan(&mut chip, 0, Tear::Junk)?;
    let same = card_of(alloc, home.as_slice())?;
    assert!(rt; replace(alloc, &mut chip, same)?);
    // The next call of all is the cut.
    assert!(rt; chip.read(0, &mut [0]).is_err());
    Ok(())
}

// The numbers of the results in the slots, 0 where a slot is free.
fn numbers_on<C: Chip>(chip: &mut C) -> Result<[u8; 8], Fail> {
    let mut numbers = [0; 8];
    for slot in 0..8 {
        let mut front = [0; 9];
        let place = HOME + (RESULT + RESULT_SLOT * slot) as u64;
        chip.read(place, &mut front).map_err(|_| "read")?;
        if front[3] > 0 {
            numbers[slot] = front[8];
        }
    }
    Ok(numbers)
}

/// The slots before, the results after, and the slots that they are to stand in.
const SLOTS: [([u8; 8], [u8; 8], [u8; 8]); 6] = [
    // One comes, into the slot of one that was removed before.
    (
        [0, 2, 0, 0, 0, 0, 0, 0],
        [2, 3, 0, 0, 0, 0, 0, 0],
        [3, 2, 0, 0, 0, 0, 0, 0],
    ),
    // One leaves.
    (
        [3, 1, 2, 0, 0, 0, 0, 0],
        [2, 3, 0, 0, 0, 0, 0, 0],
        [3, 0, 2, 0, 0, 0, 0, 0],
    ),
    // One comes for one that leaves, below a free slot and above one.
    (
        [1, 2, 3, 0, 0, 0, 0, 0],
        [1, 3, 4, 0, 0, 0, 0, 0],
        [1, 4, 3, 0, 0, 0, 0, 0],
    ),
    (
        [0, 0, 3, 0, 0, 1, 0, 2],
        [1, 3, 4, 0, 0, 0, 0, 0],
        [0, 0, 3, 0, 0, 1, 0, 4],
    ),
    // One comes for two, and two for one.
    (
        [0, 1, 2, 3, 0, 0, 0, 0],
        [3, 4, 0, 0, 0, 0, 0, 0],
        [4, 0, 0, 3, 0, 0, 0, 0],
    ),
    (
        [0, 1, 2, 0, 0, 0, 0, 0],
        [2, 3, 4, 0, 0, 0, 0, 0],
        [3, 4, 2, 0, 0, 0, 0, 0],
    ),
];

#[test]
fn results_keep_their_slots(rt: HostRuntime) -> Result<(), Fail> {
    let alloc = rt.alloc();
    for (before, pending, after) in SLOTS {
        let mut chip = chip_of(alloc, home_of(alloc, &before)?.as_slice())?;
        let home = home_of(alloc, &pending)?;
        let new = card_of(alloc, home.as_slice())?;
        assert!(rt; replace(alloc, &mut chip, new)?);
        assert!(rt; numbers_on(&mut chip)? == after, "from {before:?}");
        let there = home_on(alloc, &mut chip)?;
        assert!(rt; there.as_slice() == home.as_slice(), "card from {before:?}");
    }
    Ok(())
}
