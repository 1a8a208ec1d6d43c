//! Openings that are themselves cut.

use super::*;

/// The units before the load.
const ARMED: [Kind; 2] = [Kind::Initial, Kind::Arm];

// A chip whose load was cut at this call, and whose power came back; none where it was answered.
fn cut_load(alloc: Global, call: u32) -> Result<Option<MemChip>, Fail> {
    let mut chip = chip_after(alloc, &ARMED)?;
    let mut card = powered_up(alloc, &mut chip)?;
    plan(&card, &mut chip, call, Tear::Half)?;
    if unit(alloc, &mut card, &mut chip, Kind::Load)? {
        return Ok(None);
    }
    chip.power_on().map_err(|_| "power")?;
    Ok(Some(chip))
}

// The card of a chip whose opening is cut at this call, and which settles then.
fn reopened(alloc: Global, chip: &mut MemChip, call: u32) -> Result<EuiccCard, Fail> {
    chip.plan_cut(call, Tear::Junk).map_err(|_| "memory")?;
    match EuiccCard::power_up(alloc, chip) {
        Ok(_) => Err("the opening isn't cut".into()),
        Err(OpenError::Failed) => settled(alloc, chip, 2),
        Err(_) => Err("no card stands".into()),
    }
}

// Whether the card that a load cut at this call leaves stands however its opening is cut; none
// where the load is answered.
fn stands(alloc: Global, call: u32) -> Result<Option<bool>, Fail> {
    let Some(mut chip) = cut_load(alloc, call)? else {
        return Ok(None);
    };
    let card = powered_up(alloc, &mut chip)?;
    for again in 0..=10 {
        let Some(mut chip) = cut_load(alloc, call)? else {
            return Err("the load is cut and isn't".into());
        };
        let found = reopened(alloc, &mut chip, again)?;
        if !are_same(alloc, &card, &found)? {
            return Ok(Some(false));
        }
    }
    Ok(Some(true))
}

/// A load of 61 calls is cut at every fifth one, and the opening behind it at each of its first 11.
#[test]
fn openings_that_are_cut(rt: HostRuntime) -> Result<(), Fail> {
    for step in 0..13 {
        let call = 5 * step;
        assert_eq!(rt; stands(rt.alloc(), call)?, Some(true), "at {call}");
    }
    assert_eq!(rt; stands(rt.alloc(), 65)?, None);
    Ok(())
}
