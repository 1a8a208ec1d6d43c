ghost use Rattle.std.specs.Prelude.{◌≡◌, ◌+◌, ◌-◌, ◌^◌, min};

use super::*;
use sgp_values::Iccid;
use std::test::Fail;

/// A modem of another kind: it counts down from the last `u64`.
#[derive(Drop)]
struct LateModem {
    shown: Option<Iccid>,
    left: u64,
}

impl Modem for LateModem {
    ghost shown_iccid = { λ m. m.shown };

    ghost refresh_count = { λ m. 2 ^ 64 - 1 - m.left };

    fn shows(&self) -> Option<Iccid> {
        self.shown
    }

    fn refreshes(&self) -> u64 {
        u64::MAX - self.left
    }

    fn refresh(&mut self, now: Option<Iccid>) {
        self.shown = now;
        self.left = self.left.saturating_sub(1);
    }
}

/// What each modem shows, by the last octet of its ICCID, and how often it was refreshed.
fn shown(modems: &[Box<dyn Modem>]) -> [Option<(u8, u64)>; 3] {
    let mut all = [None; 3];
    for (at, row) in all.iter_mut().enumerate() {
        if at < modems.len() {
            let last = shows(modems, at).map_or(0, |iccid| iccid.octets()[9]);
            *row = Some((last, refreshes(modems, at)));
        }
    }
    all
}

#[test]
fn told_once_a_change(rt: HostRuntime) -> Result<(), Fail> {
    let alloc = rt.alloc();
    let a = Iccid::of(&[1; 10])?;
    let b = Iccid::of(&[2; 10])?;
    let mut modems: Vec<Box<dyn Modem>> = Vec::new(alloc);
    tell(&mut modems, Some(a));
    assert_eq!(rt; modems.len(), 0);
    modems.push(Box::new(alloc, PlainModem::new())?)?;
    modems.push(Box::new(alloc, SplitModem::new())?)?;
    modems.push(Box::new(
        alloc,
        LateModem {
            shown: Some(b),
            left: 2,
        },
    )?)?;
    let late = u64::MAX - 2;
    let steps = [
        (None, [(0, 0), (0, 0), (0, late + 1)]),
        (Some(a), [(1, 1), (1, 1), (1, late + 2)]),
        (Some(a), [(1, 1), (1, 1), (1, late + 2)]),
        (Some(b), [(2, 2), (2, 2), (2, late + 2)]),
        (None, [(0, 3), (0, 3), (0, late + 2)]),
    ];
    for (now, expected) in steps {
        tell(&mut modems, now);
        assert_eq!(rt; shown(modems.as_slice()), expected.map(Some));
    }
    Ok(())
}

#[test]
fn each_place_detached(rt: HostRuntime) -> Result<(), Fail> {
    let alloc = rt.alloc();
    for (at, left) in [(0, [2, 3]), (1, [1, 3]), (2, [1, 2])] {
        let mut modems: Vec<Box<dyn Modem>> = Vec::new(alloc);
        assert_eq!(rt; detach(&mut modems, 0), DetachEnd::NoSuch);
        for count in 1..4 {
            let left = u64::MAX - count;
            modems.push(Box::new(alloc, LateModem { shown: None, left })?)?;
        }
        assert_eq!(rt; detach(&mut modems, 3), DetachEnd::NoSuch);
        assert_eq!(rt; detach(&mut modems, at), DetachEnd::Dropped);
        let [first, second] = left;
        assert_eq!(rt;
            shown(modems.as_slice()),
            [Some((0, first)), Some((0, second)), None]
        );
    }
    Ok(())
}
