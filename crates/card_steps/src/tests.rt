//! What no clause says: that the calls succeed where there is memory, and the rules on examples.

ghost use Rattle.std.specs.Prelude.{◌≡◌, IfOk};

use super::*;
use eim_table::Eims;
use iot_bytes::{NoMemory, Row};
use packages::octets_of;
use profile_table::Table;
use result_store::Store;
use sgp_values::{Address, Eid, EimId, Iccid, Key, Nickname, OutOfRange};
use small_card::{Answer, Body, Command, Eco, Package, Profile, Psmo};
use std::alloc::Global;
use std::marker::Model;
use std::process::Abort;
use std::test::Fail;
use texts::{answer_text, card_text};

mod packages;
mod texts;

fn card_eid() -> Result<Eid, OutOfRange> {
    Eid::of(&[0, 1, 2, 3, 4, 5, 6, 7, 8, 9, 10, 11, 12, 13, 14, 15])
}

fn iccid(last: u8) -> Result<Iccid, OutOfRange> {
    Iccid::of(&[0x98, 0x44, 0, 0, 0, 0, 0, 0, 0, last])
}

/// The profiles A, B and C, of which the one with this number is enabled.
fn profiles_of(alloc: Global, enabled: u8) -> Result<Row<Profile>, Fail> {
    let mut rows = Row::new(alloc);
    for last in 1..=3 {
        rows.append(&[Profile {
            iccid: iccid(last)?,
            enabled: last == enabled,
            nickname: Nickname::of(b"")?,
        }])?;
    }
    Ok(rows)
}

/// A valid card, which steps take the place of.
#[derive(Drop)]
struct Held {
    card: Card,
}

impl Model for Held {
    ghost use Rattle.small_card.specs.Cards.{FullCard};
    ghost use Rattle.small_card.specs.Valid.{IsValid};
    ghost use Rattle.home_codec.specs.FullCards.{full_card};

    ghost Value = { FullCard };

    ghost view = { λ e. full_card e.card };

    ghost invariant = { λ e. IsValid (full_card e.card) };
}

impl Held {
    ghost use Rattle.home_codec.specs.FullCards.{full_card};
    ghost use Rattle.small_card.specs.Fresh.{fresh};
    ghost use Rattle.small_card.specs.Valid.{IsValid};
    ghost use Rattle.card_steps.specs.Steps.{answer_of, left_by};

    #[tactic(auto, unfolding(small_card::specs::Fresh::fresh))]
    fn personalise(alloc: Global, eid: Eid, profiles: Table) -> Result<Held, NoMemory>
        ensures fresh { IfOk result (λ made. made ≡ fresh eid profiles) }
    {
        let _range = eid.octets();
        profiles.in_range();
        Ok(Held {
            card: Card {
                eid,
                profiles,
                eims: Eims::new(alloc, 1)?,
                store: Store::new(alloc, 1)?,
                armed: None,
            },
        })
    }

    fn step(&mut self, alloc: Global, command: Command) -> Result<Answer, NoMemory> {
        match turn(alloc, &self.card, &command) {
            Ok(end) => Ok(self.take_over(end)),
            Err(NoMemory) => Err(NoMemory),
        }
    }

    fn take_over(&mut self, end: Turn) -> Answer
        requires valid { IsValid (left_by self.old end) }
        ensures card { self.new ≡ left_by self.old end }
        ensures answer { result ≡ answer_of end }
    {
        match end {
            Turn::Same(answer) => answer,
            Turn::Changed(card, answer) => {
                self.card = card;
                answer
            }
        }
    }
}

fn personal_card(alloc: Global, enabled: u8) -> Result<Held, Fail> {
    match Table::of(profiles_of(alloc, enabled)?) {
        Ok(table) => Ok(Held::personalise(alloc, card_eid()?, table)?),
        Err(_) => Err("a list that is no table".into()),
    }
}

fn answered(alloc: Global, held: &mut Held, command: Command) -> Result<Answer, Fail> {
    match held.step(alloc, command) {
        Ok(answer) => Ok(answer),
        Err(NoMemory) => Err("memory ran out".into()),
    }
}

fn initial(id: &[u8]) -> Result<Command, OutOfRange> {
    Ok(Command::Initial {
        id: EimId::of(id)?,
        address: Address::of(b"")?,
        key: Key::of(b"")?,
    })
}

/// A good load of a package of the first eIM.
fn load(alloc: Global, counter: u64, body: Body) -> Result<Command, Fail> {
    let load = Package {
        eim: EimId::of(b"e1")?,
        eid: card_eid()?,
        association: 1,
        counter,
        body,
    };
    Ok(Command::Load {
        good: true,
        bytes: octets_of(alloc, &load)?,
    })
}

fn load_of(alloc: Global, counter: u64, ops: &[Psmo]) -> Result<Command, Fail> {
    let mut row = Row::new(alloc);
    row.append(ops)?;
    load(alloc, counter, Body::Psmos(row))
}

fn load_of_eims(alloc: Global, counter: u64) -> Result<Command, Fail> {
    let mut row = Row::new(alloc);
    row.append(&[Eco::List])?;
    load(alloc, counter, Body::Ecos(row))
}

/// The command of a letter: 'r' rolls back, a digit removes that result, 'l' and 'e' load a package
/// that lists profiles or eIMs, 'x' is a replay, 'p' personalises again, 'i' associates a first
/// eIM, and 's' and 't' list results and eIMs.
fn command_of(alloc: Global, letter: u8) -> Result<Command, Fail> {
    match letter {
        b'r' => Ok(Command::Rollback),
        b'l' => load_of(alloc, 2, &[Psmo::List]),
        b'e' => load_of_eims(alloc, 2),
        b'x' => load_of(alloc, 1, &[Psmo::List]),
        b'i' => Ok(initial(b"e2")?),
        b's' => Ok(Command::Results),
        b't' => Ok(Command::Eims),
        b'p' => Ok(Command::Personalise {
            eid: Eid::of(&[9; 16])?,
            profiles: Row::new(alloc),
        }),
        _ => Ok(Command::Remove {
            seq: u32::from(letter.wrapping_sub(b'0')),
        }),
    }
}

fn shown(alloc: Global, held: &Held) -> Result<String, Fail> {
    card_text(
        alloc,
        held.card.profiles.rows(),
        held.card.eims.rows(),
        held.card.store.rows(),
    )
}

/// Carries out a command, and tells its answer.
fn tell(alloc: Global, card: &mut Held, command: Command, out: &mut String) -> Result<(), Fail> {
    let answer = answered(alloc, card, command)?;
    out.push_str(answer_text(alloc, &answer)?.as_str())?;
    out.push_str("; ")?;
    Ok(())
}

fn tell_all(
    alloc: Global,
    card: &mut Held,
    first: &[Psmo],
    letters: &[u8],
    out: &mut String,
) -> Result<(), Fail> {
    tell(alloc, card, load_of(alloc, 1, first)?, out)?;
    for letter in letters {
        tell(alloc, card, command_of(alloc, *letter)?, out)?;
    }
    out.push_str(shown(alloc, card)?.as_str())?;
    Ok(())
}

/// A card with A enabled and the eIM e1.
fn card_with_eim(alloc: Global) -> Result<Held, Fail> {
    let mut card = personal_card(alloc, 1)?;
    let _ = answered(alloc, &mut card, initial(b"e1")?)?;
    Ok(card)
}

/// What the card answers to a first package and to more commands, and then holds.
fn run(alloc: Global, first: &[Psmo], letters: &[u8]) -> Result<String, Fail> {
    let mut all = String::new(alloc);
    tell_all(alloc, &mut card_with_eim(alloc)?, first, letters, &mut all)?;
    Ok(all)
}

#[test]
fn worked_rollbacks(rt: HostRuntime) -> Result<(), Fail> {
    let (a, b) = (iccid(1)?, iccid(2)?);
    let disable = Psmo::Disable { iccid: a };
    let delete = Psmo::Delete { iccid: a };
    let enable = Psmo::Enable {
        iccid: b,
        rollback: true,
    };
    let (moved, lost, kept) = (
        [disable, enable],
        [disable, delete, enable],
        [enable, delete],
    );
    let cases: [(&[Psmo], &[u8], &str); 10] = [
        (
            &moved,
            b"r",
            "loaded 1 disable=0 enable=0; rolled 2; +A-B-C e1/1/1 2/e1/1/1r disable=0 enable=0",
        ),
        (
            &lost,
            b"r",
            "loaded 1 disable=0 delete=0 enable=0; not permitted; +B-C e1/1/1 1/e1/1/1 disable=0 delete=0 enable=0",
        ),
        (
            &kept,
            b"r",
            "loaded 1 enable=0 delete=3; rolled 2; +A-B-C e1/1/1 2/e1/1/1r enable=0 delete=3",
        ),
        (
            &[enable],
            b"rr12",
            "loaded 1 enable=0; rolled 2; not permitted; absent; removed; +A-B-C e1/1/1",
        ),
        (
            &[enable],
            b"1r",
            "loaded 1 enable=0; removed; not permitted; -A+B-C e1/1/1",
        ),
        (
            &[enable],
            b"xr",
            "loaded 1 enable=0; refused 6 1 1; rolled 2; +A-B-C e1/1/1 2/e1/1/1r enable=0",
        ),
        (
            &[enable],
            b"pr",
            "loaded 1 enable=0; already personal; rolled 2; +A-B-C e1/1/1 2/e1/1/1r enable=0",
        ),
        (
            &[enable],
            b"lr1",
            "loaded 1 enable=0; loaded 2 profiles=-A+B-C; not permitted; removed; -A+B-C e1/1/2 2/e1/1/2 profiles=-A+B-C",
        ),
        (
            &[enable],
            b"ist",
            "loaded 1 enable=0; initial refused 1;  1/e1/1/1 enable=0;  e1/1/1/[]; -A+B-C e1/1/1 1/e1/1/1 enable=0",
        ),
        (
            &[enable],
            b"er12",
            "loaded 1 enable=0; loaded 2 eims= e1/1/2/[]; not permitted; removed; removed; -A+B-C e1/1/2",
        ),
    ];
    for (first, letters, wanted) in cases {
        assert_eq!(rt; run(rt.alloc(), first, letters)?.as_str(), wanted);
    }
    Ok(())
}

fn check_told(
    rt: &impl Abort,
    alloc: Global,
    card: &mut Held,
    command: Command,
    wanted: &str,
) -> Result<(), Fail> {
    let answer = answered(alloc, card, command)?;
    assert_eq!(rt; answer_text(alloc, &answer)?.as_str(), wanted);
    Ok(())
}

fn list_load(alloc: Global, counter: u64) -> Result<Command, Fail> {
    load_of(alloc, counter, &[Psmo::List])
}

/// Loads the packages with counters 1 to 8, and gives the list of their results.
fn eight_loads(rt: &impl Abort, alloc: Global, card: &mut Held) -> Result<String, Fail> {
    let mut results = String::new(alloc);
    for counter in 1..=8 {
        let wanted = format!(in alloc; "loaded {counter} profiles=+A-B-C")?;
        check_told(rt, alloc, card, list_load(alloc, counter)?, wanted.as_str())?;
        let kept = format!(in alloc; " {counter}/e1/1/{counter} profiles=+A-B-C")?;
        results.push_str(kept.as_str())?;
    }
    Ok(results)
}

fn check_ninth(rt: &impl Abort, alloc: Global, card: &mut Held, results: &str) -> Result<(), Fail> {
    check_told(rt, alloc, card, list_load(alloc, 9)?, "refused 7 0 0")?;
    check_told(rt, alloc, card, Command::Results, results)?;
    check_told(rt, alloc, card, Command::Remove { seq: 1 }, "removed")?;
    check_told(
        rt,
        alloc,
        card,
        list_load(alloc, 9)?,
        "loaded 9 profiles=+A-B-C",
    )
}

#[test]
fn nine_loads(rt: HostRuntime) -> Result<(), Fail> {
    let mut card = card_with_eim(rt.alloc())?;
    let results = eight_loads(&rt, rt.alloc(), &mut card)?;
    check_ninth(&rt, rt.alloc(), &mut card, results.as_str())
}
