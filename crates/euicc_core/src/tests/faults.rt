//! Steps of which each call is cut, or fails, in turn.

use super::*;
use std::process::Abort;

/// More calls than a step makes.
const MANY: u32 = 10_000;

/// What befalls one call of a step.
#[derive(Clone, Copy, Debug, PartialEq, Eq)]
enum Fault {
    /// The power is cut, which leaves this of what isn't synced.
    Cut(Tear),
    /// It fails alone, and nothing is written.
    Once,
}

/// The units before a step: without them there is no eIM, and behind them one result is armed.
fn before(kind: Kind) -> &'static [Kind] {
    match kind {
        Kind::Initial => &[],
        _ => &[Kind::Initial, Kind::Arm],
    }
}

/// How many calls the chip has had as the step begins: so many fewer pass until a planned cut.
fn calls_before(alloc: Global, kind: Kind) -> Result<u64, Fail> {
    let many = 10 * MANY;
    let mut chip = MemChip::new(alloc, Row::new(alloc))?;
    chip.plan_cut(many, Tear::Old).map_err(|_| "memory")?;
    make(alloc, &mut chip, before(kind))?;
    powered_up(alloc, &mut chip)?;
    for more in 0..many {
        if chip.read(0, &mut [0]).is_err() {
            return Ok(u64::from(many - more));
        }
    }
    Err("the plan was dropped".into())
}

/// Whether a step that is cut at this call is answered, and the card that is powered up then.
fn cut(alloc: Global, kind: Kind, call: u32, tear: Tear) -> Result<(bool, EuiccCard), Fail> {
    let mut chip = chip_after(alloc, before(kind))?;
    let mut card = powered_up(alloc, &mut chip)?;
    plan(&card, &mut chip, call, tear)?;
    let answered = unit(alloc, &mut card, &mut chip, kind)?;
    chip.drop_plan();
    chip.power_on().map_err(|_| "power")?;
    Ok((answered, powered_up(alloc, &mut chip)?))
}

/// The same of a step of which this call of the chip fails, counted from its first one.
fn failed(alloc: Global, kind: Kind, call: u64) -> Result<(bool, EuiccCard), Fail> {
    let mut failing = Row::new(alloc);
    failing.append(&[call])?;
    let mut chip = MemChip::new(alloc, failing)?;
    make(alloc, &mut chip, before(kind))?;
    let mut card = powered_up(alloc, &mut chip)?;
    let answered = unit(alloc, &mut card, &mut chip, kind)?;
    // Behind a step that is answered this call is one of the first try.
    let card = if answered {
        settled(alloc, &mut chip, 2)?
    } else {
        settled(alloc, &mut chip, 1)?
    };
    Ok((answered, card))
}

/// A unit of a card: the card before it and after it, and the calls of the chip before its step.
#[derive(Drop)]
struct Trial {
    kind: Kind,
    old: EuiccCard,
    new: EuiccCard,
    begun: u64,
}

impl Trial {
    fn of(alloc: Global, kind: Kind) -> Result<Trial, Fail> {
        let mut chip = chip_after(alloc, before(kind))?;
        let old = powered_up(alloc, &mut chip)?;
        carry_out(alloc, &mut chip, kind)?;
        let new = powered_up(alloc, &mut chip)?;
        if are_same(alloc, &old, &new)? {
            return Err("the unit changes nothing".into());
        }
        let begun = calls_before(alloc, kind)?;
        Ok(Trial {
            kind,
            old,
            new,
            begun,
        })
    }

    /// Whether a step with this fault is answered, and whether the card then is the one after the
    /// unit. Any other card than the two is none.
    fn struck(&self, alloc: Global, fault: Fault, call: u32) -> Result<(bool, bool), Fail> {
        let (answered, card) = match fault {
            Fault::Cut(tear) => cut(alloc, self.kind, call, tear)?,
            Fault::Once => {
                let call = self.begun.saturating_add(u64::from(call));
                failed(alloc, self.kind, call)?
            }
        };
        if are_same(alloc, &card, &self.new)? {
            Ok((answered, true))
        } else if are_same(alloc, &card, &self.old)? {
            Ok((answered, false))
        } else {
            Err("the card is neither".into())
        }
    }

    /// How many calls a step has, at each of which it is lost, and how many of the last of these
    /// leave the card after the unit; all others leave the one before it.
    fn counts(&self, alloc: Global, fault: Fault) -> Result<(u32, u32), Fail> {
        let mut after: u32 = 0;
        for call in 0..MANY {
            let (answered, is_new) = self.struck(alloc, fault, call)?;
            if after > 0 && !is_new {
                return Err("the unit is undone by a later call".into());
            }
            if answered {
                return Ok((call, after));
            }
            if is_new {
                after = after.saturating_add(1);
            }
        }
        Err("the step has no end".into())
    }
}

/// Strikes a step at each of its calls: there are so many, and so many of the last of these leave
/// the card after the unit. The first one never does.
fn strike(
    rt: &impl Abort,
    alloc: Global,
    kind: Kind,
    fault: Fault,
    counts: (u32, u32),
) -> Result<(), Fail> {
    let found = Trial::of(alloc, kind)?.counts(alloc, fault)?;
    assert_eq!(rt; found, counts, "{kind:?} with {fault:?}");
    assert!(rt; found.1 < found.0);
    Ok(())
}

// A step's calls are 41 of staging (the fronts of the slots, the blocks of the fields, and one of
// each slot), 3 for each block that changes and 7 more of the commit, and the answer. Changed are
// the head and two blocks of the eIM; the head, a block of the profiles, of the eIM and of the
// result; the head, a block of the profiles and of the result; the head and a block of the result.
// The last three calls are the gate's closing, its sync and the answer; A5 in the gate is open.

#[test]
fn a_first_association_cut_old(rt: HostRuntime) -> Result<(), Fail> {
    strike(
        &rt,
        rt.alloc(),
        Kind::Initial,
        Fault::Cut(Tear::Old),
        (58, 1),
    )
}

#[test]
fn a_first_association_cut_new(rt: HostRuntime) -> Result<(), Fail> {
    strike(
        &rt,
        rt.alloc(),
        Kind::Initial,
        Fault::Cut(Tear::New),
        (58, 3),
    )
}

#[test]
fn a_first_association_cut_half(rt: HostRuntime) -> Result<(), Fail> {
    strike(
        &rt,
        rt.alloc(),
        Kind::Initial,
        Fault::Cut(Tear::Half),
        (58, 2),
    )
}

#[test]
fn a_first_association_cut_junk(rt: HostRuntime) -> Result<(), Fail> {
    strike(
        &rt,
        rt.alloc(),
        Kind::Initial,
        Fault::Cut(Tear::Junk),
        (58, 1),
    )
}

#[test]
fn a_load_cut_old(rt: HostRuntime) -> Result<(), Fail> {
    strike(&rt, rt.alloc(), Kind::Load, Fault::Cut(Tear::Old), (61, 1))
}

#[test]
fn a_load_cut_new(rt: HostRuntime) -> Result<(), Fail> {
    strike(&rt, rt.alloc(), Kind::Load, Fault::Cut(Tear::New), (61, 3))
}

#[test]
fn a_load_cut_half(rt: HostRuntime) -> Result<(), Fail> {
    strike(&rt, rt.alloc(), Kind::Load, Fault::Cut(Tear::Half), (61, 2))
}

#[test]
fn a_load_cut_junk(rt: HostRuntime) -> Result<(), Fail> {
    strike(&rt, rt.alloc(), Kind::Load, Fault::Cut(Tear::Junk), (61, 1))
}

#[test]
fn a_rollback_cut_old(rt: HostRuntime) -> Result<(), Fail> {
    strike(
        &rt,
        rt.alloc(),
        Kind::Rollback,
        Fault::Cut(Tear::Old),
        (58, 1),
    )
}

#[test]
fn a_rollback_cut_new(rt: HostRuntime) -> Result<(), Fail> {
    strike(
        &rt,
        rt.alloc(),
        Kind::Rollback,
        Fault::Cut(Tear::New),
        (58, 3),
    )
}

#[test]
fn a_rollback_cut_half(rt: HostRuntime) -> Result<(), Fail> {
    strike(
        &rt,
        rt.alloc(),
        Kind::Rollback,
        Fault::Cut(Tear::Half),
        (58, 2),
    )
}

#[test]
fn a_rollback_cut_junk(rt: HostRuntime) -> Result<(), Fail> {
    strike(
        &rt,
        rt.alloc(),
        Kind::Rollback,
        Fault::Cut(Tear::Junk),
        (58, 1),
    )
}

#[test]
fn a_removal_cut_old(rt: HostRuntime) -> Result<(), Fail> {
    strike(
        &rt,
        rt.alloc(),
        Kind::Remove,
        Fault::Cut(Tear::Old),
        (55, 1),
    )
}

#[test]
fn a_removal_cut_new(rt: HostRuntime) -> Result<(), Fail> {
    strike(
        &rt,
        rt.alloc(),
        Kind::Remove,
        Fault::Cut(Tear::New),
        (55, 3),
    )
}

#[test]
fn a_removal_cut_half(rt: HostRuntime) -> Result<(), Fail> {
    strike(
        &rt,
        rt.alloc(),
        Kind::Remove,
        Fault::Cut(Tear::Half),
        (55, 2),
    )
}

#[test]
fn a_removal_cut_junk(rt: HostRuntime) -> Result<(), Fail> {
    strike(
        &rt,
        rt.alloc(),
        Kind::Remove,
        Fault::Cut(Tear::Junk),
        (55, 1),
    )
}

#[test]
fn a_first_association_of_which_a_call_fails(rt: HostRuntime) -> Result<(), Fail> {
    strike(&rt, rt.alloc(), Kind::Initial, Fault::Once, (58, 2))
}

#[test]
fn a_load_of_which_a_call_fails(rt: HostRuntime) -> Result<(), Fail> {
    strike(&rt, rt.alloc(), Kind::Load, Fault::Once, (61, 2))
}

#[test]
fn a_rollback_of_which_a_call_fails(rt: HostRuntime) -> Result<(), Fail> {
    strike(&rt, rt.alloc(), Kind::Rollback, Fault::Once, (58, 2))
}

#[test]
fn a_removal_of_which_a_call_fails(rt: HostRuntime) -> Result<(), Fail> {
    strike(&rt, rt.alloc(), Kind::Remove, Fault::Once, (55, 2))
}
