//! What no clause says: that the calls succeed where there is memory, which octets a worked card
//! has, whole and by parts, and which homes are that of no card.

ghost use Rattle.small_card.specs.Lists.{Every};
ghost use Rattle.small_card.specs.Ranges.{IsResult};
ghost use Rattle.small_card.specs.Valid.{IsValid};
ghost use Rattle.home_codec.specs.FullCards.{full_card};

use super::*;
use iot_bytes::{NoMemory, ReadError, Row};
use small_card::PackageResult;
use std::alloc::Global;
use std::process::Abort;
use std::test::Fail;

const EID: [u8; 16] = [0, 1, 2, 3, 4, 5, 6, 7, 8, 9, 10, 11, 12, 13, 14, 15];

const A: [u8; 10] = [0x98, 0x44, 0, 0, 0, 0, 0, 0, 0, 1];

const B: [u8; 10] = [0x98, 0x44, 0, 0, 0, 0, 0, 0, 0, 2];

/// Where slots begin.
const PROFILE: usize = 256;

const EIM: usize = 2_304;

const RESULT: usize = 6_400;

/// The result with number 2, and the marked one with number 3: one enable that was done.
const SECOND: [u8; 26] = [
    0, 0, 0, 22, 0x30, 0x14, 0x80, 1, 2, 0x81, 2, b'e', b'1', 0x82, 1, 1, 0x83, 1, 1, 0xa4, 5,
    0xa0, 3, 0x80, 1, 0,
];

const MARKED: [u8; 28] = [
    0, 0, 0, 24, 0x30, 0x16, 0x80, 1, 3, 0x81, 2, b'e', b'1', 0x82, 1, 1, 0x83, 1, 1, 0xa4, 5,
    0xa0, 3, 0x80, 1, 0, 0x85, 0,
];

// Zeros until the row has so many octets.
fn fill(out: &mut Row<u8>, until: usize) -> Result<(), Fail> {
    for _ in out.len()..until {
        out.append(&[0])?;
    }
    Ok(())
}

// The home of a card that was just personalised with the profile A.
fn fresh_home(alloc: Global) -> Result<Row<u8>, Fail> {
    let mut out = Row::new(alloc);
    out.append(&[1])?;
    out.append(&EID)?;
    out.append(&[1, 0, 0, 0, 0, 1, 0, 0, 0, 1, 0])?;
    fill(&mut out, PROFILE)?;
    out.append(&A)?;
    fill(&mut out, HOME)?;
    Ok(out)
}

fn put_eims(out: &mut Row<u8>) -> Result<(), Fail> {
    out.append(&[2, b'e', b'1'])?;
    fill(out, EIM + 129)?;
    out.append(&[1, b'/'])?;
    fill(out, EIM + 258)?;
    out.append(&[1, 7])?;
    fill(out, EIM + 387)?;
    out.append(&[0, 0, 0, 0, 0, 0, 0, 5, 0, 0, 0, 1])?;
    fill(out, EIM + 512)?;
    out.append(&[2, b'e', b'2'])?;
    fill(out, EIM + 512 + 395)?;
    out.append(&[0, 0, 0, 2])?;
    fill(out, RESULT)
}

// The home of a card with two profiles, two eIMs and two results, armed; the results in two slots.
fn full_home(alloc: Global, slots: [&[u8]; 3]) -> Result<Row<u8>, Fail> {
    let mut out = Row::new(alloc);
    out.append(&[1])?;
    out.append(&EID)?;
    out.append(&[2, 2, 0, 0, 0, 3, 0, 0, 0, 4, 1])?;
    out.append(&B)?;
    out.append(&[0, 0, 0, 2])?;
    fill(&mut out, PROFILE)?;
    out.append(&A)?;
    out.append(&[1, 2, b'h', b'i'])?;
    fill(&mut out, PROFILE + 128)?;
    out.append(&B)?;
    fill(&mut out, EIM)?;
    put_eims(&mut out)?;
    for slot in slots {
        let end = out.len().saturating_add(RESULT_SLOT);
        out.append(slot)?;
        fill(&mut out, end)?;
    }
    fill(&mut out, HOME)?;
    Ok(out)
}

// The home of the card that is read, as it is written; none where no card is read.
fn written(alloc: Global, home: &[u8]) -> Result<Option<Row<u8>>, Fail> {
    match read_card(alloc, home) {
        Ok(card) => Ok(Some(home_octets(alloc, &card)?)),
        Err(ReadError::Malformed) => Ok(None),
        Err(ReadError::NoMemory) => Err("memory ran out".into()),
    }
}

#[test]
fn homes_of_cards(rt: HostRuntime) -> Result<(), Fail> {
    let alloc = rt.alloc();
    let fresh = fresh_home(alloc)?;
    let full = full_home(alloc, [&SECOND, &MARKED, &[]])?;
    // Other slots, and octets behind what is looked at.
    let mut more = Row::new(alloc);
    more.append(&SECOND)?;
    more.append(&[9, 9])?;
    let turned = full_home(alloc, [&MARKED, &[0, 0, 0, 0, 9], more.as_slice()])?;
    for (home, wanted) in [(&fresh, &fresh), (&full, &full), (&turned, &full)] {
        let again = written(alloc, home.as_slice())?.ok_or("it is a card's home")?;
        assert!(rt; again.as_slice() == wanted.as_slice());
    }
    Ok(())
}

// The number that the slot at this place tells.
fn number_at(home: &[u8], place: usize) -> Result<Option<u32>, Fail> {
    match home.get(place..) {
        Some(front) => {
            if front.len() < 32 {
                return Err("no whole slot".into());
            }
            Ok(slot_number(front))
        }
        None => Err("no such slot".into()),
    }
}

fn slot_at(alloc: Global, pending: &[PackageResult], at: usize) -> Result<Row<u8>, NoMemory>
    requires { Every IsResult pending.now }
{
    slot_octets(alloc, pending.get(at))
}

// What the slot of this place in the list begins with.
fn slot_of(alloc: Global, card: &Card, at: usize) -> Result<Row<u8>, NoMemory>
    requires { IsValid (full_card card.now) }
{
    slot_at(alloc, card.store.rows(), at)
}

#[test]
fn parts_of_a_home(rt: HostRuntime) -> Result<(), Fail> {
    let alloc = rt.alloc();
    let full = full_home(alloc, [&SECOND, &MARKED, &[]])?;
    let home = full.as_slice();
    let card = read_card(alloc, home)?.copy(alloc)?;
    let fields = fields_octets(alloc, &card)?;
    assert!(rt; Some(fields.as_slice()) == home.get(..FIELDS));
    let fronts: [(&[u8], Option<u32>); 3] = [
        (&SECOND, Some(2)),
        (&MARKED, Some(3)),
        (&[0; 4], None),
    ];
    let mut place = RESULT;
    for (at, (front, number)) in fronts.into_iter().enumerate() {
        assert!(rt; slot_of(alloc, &card, at)?.as_slice() == front, "slot {at}");
        assert!(rt; number_at(home, place)? == number, "number in slot {at}");
        place = place.saturating_add(RESULT_SLOT);
    }
    homes_have_one_card();
    homes_are_read_back();
    homes_are_whole();
    parts_are_laid();
    places_change();
    Ok(())
}

type Faults<const N: usize> = [(usize, &'static [u8]); N];

fn faulty_heads() -> Faults<16> {
    [
        (0, &[2]),
        (17, &[1]),
        (17, &[17]),
        (18, &[1]),
        (18, &[9]),
        (19, &[0, 0, 0, 0]),
        (19, &[0, 0, 0, 2]),
        (23, &[0, 0, 0, 3]),
        (23, &[255, 255, 255, 255]),
        (27, &[0]),
        (27, &[2]),
        (28, &[0]),
        (38, &[0, 0, 0, 1]),
        (38, &[0, 0, 0, 3]),
        (42, &[1]),
        (255, &[1]),
    ]
}

fn faulty_profiles() -> Faults<8> {
    [
        (256 + 10, &[2]),
        (256 + 11, &[65]),
        (256 + 11, &[1]),
        (256 + 12, &[255]),
        (256 + 127, &[1]),
        (384, &A),
        (384 + 10, &[1]),
        (512, &[1]),
    ]
}

fn faulty_eims() -> Faults<13> {
    [
        (2304, &[0, 0, 0]),
        (2304, &[129]),
        (2304 + 1, b" "),
        (2304 + 3, b"x"),
        (2304 + 129, &[129]),
        (2304 + 130, b"#"),
        (2304 + 258, &[129]),
        (2304 + 387, &[128]),
        (2304 + 395, &[0, 0, 0, 0]),
        (2304 + 395, &[0, 0, 0, 2]),
        (2304 + 511, &[1]),
        (2816 + 1, b"e1"),
        (3328, &[1]),
    ]
}

fn faulty_results() -> Faults<9> {
    [
        (6400, &[0, 0, 0, 0]),
        (6400, &[0, 0, 0, 21]),
        (6400, &[0, 0, 0, 23]),
        (6400, &[0, 0, 80, 252]),
        (6400, &[255, 255, 255, 255]),
        (6400 + 4, &[0x31]),
        (6400 + 8, &[0]),
        (6400 + 8, &[3]),
        (6400 + 8, &[4]),
    ]
}

// Each of these octets at its place leaves a home of no card.
fn all_refused(
    rt: &impl Abort,
    alloc: Global,
    home: &[u8],
    faults: &[(usize, &[u8])],
) -> Result<(), Fail> {
    for (at, octets) in faults {
        let end = at.saturating_add(octets.len());
        if end > home.len() {
            return Err("behind the home".into());
        }
        let mut broken = Row::new(alloc);
        broken.append(&home[..*at])?;
        broken.append(octets)?;
        broken.append(&home[end..])?;
        assert!(rt;
            written(alloc, broken.as_slice())?.is_none(),
            "{octets:?} at {at}"
        );
    }
    Ok(())
}

#[test]
fn homes_of_no_card(rt: HostRuntime) -> Result<(), Fail> {
    let alloc = rt.alloc();
    let full = full_home(alloc, [&SECOND, &MARKED, &[]])?;
    let home = full.as_slice();
    all_refused(&rt, alloc, home, &faulty_heads())?;
    all_refused(&rt, alloc, home, &faulty_profiles())?;
    all_refused(&rt, alloc, home, &faulty_eims())?;
    all_refused(&rt, alloc, home, &faulty_results())
}
