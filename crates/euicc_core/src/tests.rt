//! What no clause says: that calls succeed where there is enough memory, what steps that are cut
//! leave, and which octets a card has.

ghost use Rattle.std.specs.Prelude.{◌≤◌, IfOk};
ghost use Rattle.chip_port.specs.Rules.{IfTold};
ghost use Rattle.euicc_core.specs.Steps.{IsLitOn};

use super::*;
use chip_port::{Bench, Chip, MemChip, Tear};
use home_codec::fields_octets;
use iot_bytes::{NoMemory, Row};
use profile_table::Table;
use sgp_values::{Address, Eid, EimId, Iccid, Key, Nickname, OutOfRange};
use small_card::{Answer, Command, Profile};
use std::alloc::Global;
use std::test::Fail;

mod faults;
mod reopenings;
mod settling;
mod worked_image;

const EID: [u8; 16] = [0, 1, 2, 3, 4, 5, 6, 7, 8, 9, 10, 11, 12, 13, 14, 15];

const A: [u8; 10] = [0x98, 0x44, 0, 0, 0, 0, 0, 0, 0, 1];

const B: [u8; 10] = [0x98, 0x44, 0, 0, 0, 0, 0, 0, 0, 2];

fn profile(iccid: &[u8; 10], enabled: bool) -> Result<Profile, OutOfRange> {
    Ok(Profile {
        iccid: Iccid::of(iccid)?,
        enabled,
        nickname: Nickname::of(b"")?,
    })
}

// The enabled profile A, and B.
fn table(alloc: Global) -> Result<Table, Fail> {
    let mut rows = Row::new(alloc);
    rows.append(&[profile(&A, true)?, profile(&B, false)?])?;
    Table::of(rows).map_err(|_| "no table".into())
}

fn powered_up<C: Chip>(alloc: Global, chip: &mut C) -> Result<EuiccCard, Fail>
    ensures settled { IfOk result
        (λ card. IfTold (C.sees chip.new) (IsLitOn card (C.sees chip.new))) }
{
    match EuiccCard::power_up(alloc, chip) {
        Ok(card) => Ok(card),
        Err(_) => Err("no card stands".into()),
    }
}

// The octets of a package of the eIM e1 with association 1 and this counter: it enables a profile,
// and permits a rollback.
fn package(alloc: Global, counter: u8, iccid: &[u8; 10]) -> Result<Row<u8>, NoMemory> {
    let mut out = Row::new(alloc);
    out.append(&[0x30, 50, 0x30, 46, 0x80, 2, b'e', b'1', 0x81, 16])?;
    out.append(&EID)?;
    out.append(&[0x82, 1, 1, 0x83, 1, counter])?;
    out.append(&[0xa4, 16, 0xa0, 14, 0x80, 10])?;
    out.append(iccid)?;
    out.append(&[0x81, 0, 0x86, 0])?;
    Ok(out)
}

/// A command that writes a unit.
#[derive(Clone, Copy, Debug, PartialEq, Eq)]
enum Kind {
    Initial,
    /// A first package, which enables B: its result is armed.
    Arm,
    /// A second package, which enables A.
    Load,
    Rollback,
    Remove,
}

fn command(alloc: Global, kind: Kind) -> Result<Command, Fail> {
    match kind {
        Kind::Initial => Ok(Command::Initial {
            id: EimId::of(b"e1")?,
            address: Address::of(b"/")?,
            key: Key::of(&[7])?,
        }),
        Kind::Arm => Ok(Command::Load {
            good: true,
            bytes: package(alloc, 1, &B)?,
        }),
        Kind::Load => Ok(Command::Load {
            good: true,
            bytes: package(alloc, 2, &A)?,
        }),
        Kind::Rollback => Ok(Command::Rollback),
        Kind::Remove => Ok(Command::Remove { seq: 1 }),
    }
}

// Whether the answer says that the unit of the command was carried out.
fn is_done(kind: Kind, answer: &Answer) -> bool {
    match (kind, answer) {
        (Kind::Initial, Answer::Associated { association: 1 }) => true,
        (Kind::Arm, Answer::Loaded(kept)) => kept.seq == 1,
        (Kind::Load, Answer::Loaded(kept)) => kept.seq == 2,
        (Kind::Rollback, Answer::RolledBack { seq: 2 }) => true,
        (Kind::Remove, Answer::Removed) => true,
        _ => false,
    }
}

// Carries out a unit, and tells whether it was answered. Any other answer than that it is done is
// none.
fn unit<C: Chip>(
    alloc: Global,
    card: &mut EuiccCard,
    chip: &mut C,
    kind: Kind,
) -> Result<bool, Fail>
    requires settled { IfTold (C.sees chip.old) (IsLitOn card.old (C.sees chip.old)) }
{
    match card.step(alloc, chip, &command(alloc, kind)?) {
        StepEnd::Answered(answer) => {
            if is_done(kind, &answer) {
                Ok(true)
            } else {
                Err("the answer of another end".into())
            }
        }
        StepEnd::Lost => Ok(false),
        StepEnd::Dark | StepEnd::NoMemory => Err("no step".into()),
    }
}

// Powers the card up, and carries out a unit, which is answered.
fn carry_out<C: Chip>(alloc: Global, chip: &mut C, kind: Kind) -> Result<(), Fail> {
    let mut card = powered_up(alloc, chip)?;
    if unit(alloc, &mut card, chip, kind)? {
        Ok(())
    } else {
        Err("a unit was lost".into())
    }
}

// Makes a card with both profiles on the chip, and carries out these units.
fn make<C: Chip>(alloc: Global, chip: &mut C, kinds: &[Kind]) -> Result<(), Fail> {
    if EuiccCard::personalise(alloc, chip, Eid::of(&EID)?, table(alloc)?).is_err() {
        return Err("no card was made".into());
    }
    for kind in kinds {
        carry_out(alloc, chip, *kind)?;
    }
    Ok(())
}

// A chip on which a card with both profiles carried out these units.
fn chip_after(alloc: Global, kinds: &[Kind]) -> Result<MemChip, Fail> {
    let mut chip = MemChip::new(alloc, Row::new(alloc))?;
    make(alloc, &mut chip, kinds)?;
    Ok(chip)
}

// Plans a cut of the chip of a lit card.
fn plan<B: Bench>(card: &EuiccCard, bench: &mut B, calls: u32, tear: Tear) -> Result<(), Fail>
    requires { IfTold (B.sees bench.old) (IsLitOn card.now (B.sees bench.old)) }
    ensures { IfTold (B.sees bench.new) (IsLitOn card.now (B.sees bench.new)) }
{
    match bench.plan_cut(calls, tear) {
        Ok(()) => Ok(()),
        Err(_) => Err("no memory for a plan".into()),
    }
}

// The card of a bench that is settled in at most so many tries.
fn settled<B: Bench>(alloc: Global, bench: &mut B, tries: u32) -> Result<EuiccCard, Fail>
    requires { 1 ≤ tries }
{
    match EuiccCard::settle(alloc, bench, tries) {
        SettleEnd::Lit(card) => Ok(card),
        SettleEnd::Spent => Err("no try is left".into()),
        SettleEnd::Unrecognised | SettleEnd::NoMemory => Err("no card stands".into()),
    }
}

// Whether two lit cards are the same.
fn are_same(alloc: Global, one: &EuiccCard, other: &EuiccCard) -> Result<bool, Fail> {
    let (Some(one), Some(other)) = (one.card(), other.card()) else {
        return Err("a card is dark".into());
    };
    let same_fields = fields_octets(alloc, one)? == fields_octets(alloc, other)?;
    Ok(same_fields && one.store.rows() == other.store.rows())
}
