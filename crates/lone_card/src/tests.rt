//! What no clause says: a card is answered for with ample memory, it stands from run to run, and a
//! run goes on behind each call of the chip that failed.

use super::*;
use chip_port::MemChip;
use iot_bytes::{MemSink, MemSource, Row, read_hex};
use std::alloc::Global;
use std::test::Fail;

const PERSONALISE: &str =
    "a0278010000102030405060708090a0b0c0d0e0fa1133011800a984400000000000000018101008200";

const INITIAL: &str = "a6088002653181008200";

const LOAD: &str = "a1378001018132 3030302c80026531 8110000102030405060708090a0b0c0d0e0f \
    820101 830101 a40ea00c800a98440000000000000001 8600";

const PERSONALISED: &str = "8000";

const ASSOCIATED: &str = "a903800101";

const LOADED: &str = "a116 3014 800101 81026531 820101 830101 a405a003800100";

/// A personalisation, an association and a load: each command, its answer, and its answer where the
/// card carried it out before.
const UNITS: [(&str, &str, &str); 3] = [
    (PERSONALISE, PERSONALISED, "8c00"),
    (INITIAL, ASSOCIATED, "aa03800101"),
    (LOAD, LOADED, "a209 800106 810101 820101"),
];

/// The stop records of a chip that fails: while the card is opened, and at each of the units.
const FAULTS: [&str; 4] = [
    "ad06 800104 810100",
    "ad06 800104 810101",
    "ad06 800104 810102",
    "ad06 800104 810103",
];

/// Appends the frame of a content of fewer than 256 octets in hexadecimal; spaces are for its
/// reader.
fn put(out: &mut Row<u8>, alloc: Global, content: &str) -> Result<(), Fail> {
    let mut digits = Row::new(alloc);
    for octet in content.as_bytes() {
        if *octet != b' ' {
            digits.append(&[*octet])?;
        }
    }
    let Ok(octets) = read_hex(alloc, digits.as_slice()) else {
        return Err("the content isn't hexadecimal".into());
    };
    let Ok(len) = u8::try_from(octets.len()) else {
        return Err("the content is too long".into());
    };
    out.append(&[0, 0, 0, len])?;
    out.append(octets.as_slice())?;
    Ok(())
}

/// The frames of these contents.
fn frames(alloc: Global, contents: &[&str]) -> Result<Row<u8>, Fail> {
    let mut out = Row::new(alloc);
    for content in contents {
        put(&mut out, alloc, *content)?;
    }
    Ok(out)
}

/// The frames of all units.
fn commands(alloc: Global) -> Result<Row<u8>, Fail> {
    let mut out = Row::new(alloc);
    for (command, _, _) in UNITS {
        put(&mut out, alloc, command)?;
    }
    Ok(out)
}

/// The answers to all units, of which the card carried so many out before.
fn answers(alloc: Global, done: usize) -> Result<Row<u8>, Fail> {
    let mut out = Row::new(alloc);
    for (at, (_, first, again)) in UNITS.into_iter().enumerate() {
        put(&mut out, alloc, if at < done { again } else { first })?;
    }
    Ok(out)
}

/// What is sent where the chip fails while the card is opened, 0, or at the unit with this number.
fn broken(alloc: Global, number: usize) -> Result<Row<u8>, Fail> {
    let mut out = Row::new(alloc);
    for (_, first, _) in UNITS.into_iter().take(number.saturating_sub(1)) {
        put(&mut out, alloc, first)?;
    }
    for fault in FAULTS.into_iter().skip(number).take(1) {
        put(&mut out, alloc, fault)?;
    }
    Ok(out)
}

/// The status of a run over the chip, and what was sent.
fn ran(alloc: Global, input: &Row<u8>, chip: &mut MemChip) -> Result<(u8, Row<u8>), Fail> {
    let mut source = MemSource::new(input.copy(alloc)?, 1 << 20, Row::new(alloc));
    let mut sink = MemSink::new(alloc, 1 << 10, 1 << 10, Row::new(alloc))?;
    let status = run_card(alloc, &mut source, &mut sink, chip);
    let mut sent = Row::new(alloc);
    sent.append(sink.taken())?;
    Ok((status, sent))
}

/// A chip of which the call with this number fails.
fn failing_chip(alloc: Global, call: u64) -> Result<MemChip, Fail> {
    let mut failing = Row::new(alloc);
    failing.append(&[call])?;
    Ok(MemChip::new(alloc, failing)?)
}

/// Which of the ends of a run over a chip that fails this is.
fn place_of(alloc: Global, sent: &Row<u8>) -> Result<usize, Fail> {
    for number in 0..FAULTS.len() {
        if *sent == broken(alloc, number)? {
            return Ok(number);
        }
    }
    Err("what was sent isn't the answers before and the stop record".into())
}

/// Whether a further run over the chip goes on: from the card before the unit with this number, or
/// from the card after it.
fn goes_on(alloc: Global, chip: &mut MemChip, number: usize) -> Result<bool, Fail> {
    let (status, sent) = ran(alloc, &commands(alloc)?, chip)?;
    let before = answers(alloc, number.saturating_sub(1))?;
    let after = answers(alloc, number)?;
    Ok(status == 0 && (sent == before || sent == after))
}

/// Where a run stops whose call with this number fails, 0 while the card is opened or else the
/// number of the unit; none where it makes fewer calls. A further run over the same chip goes on.
fn stops_at(alloc: Global, call: u64) -> Result<Option<usize>, Fail> {
    let mut chip = failing_chip(alloc, call)?;
    let (status, sent) = ran(alloc, &commands(alloc)?, &mut chip)?;
    if status == 0 && sent == answers(alloc, 0)? {
        return Ok(None);
    }
    let number = place_of(alloc, &sent)?;
    if status == 4 && goes_on(alloc, &mut chip, number)? {
        Ok(Some(number))
    } else {
        Err("the run doesn't end with 4, or none goes on".into())
    }
}

/// Every call of the chip fails in turn, from the first read to the answer to the last unit.
#[test]
fn each_call_of_the_chip_fails(rt: HostRuntime) -> Result<(), Fail> {
    let mut reached = 0;
    for call in 0..10_000 {
        let Some(number) = stops_at(rt.alloc(), call)? else {
            assert_eq!(rt; reached, UNITS.len(), "of {call} calls");
            return Ok(());
        };
        assert!(rt;
            reached <= number && number <= reached.saturating_add(1),
            "at call {call}"
        );
        reached = number;
    }
    Err("the run has no end".into())
}

/// Runs one after the other over one chip: what is asked, and what is answered.
const RUNS: [(&[&str], &[&str]); 6] = [
    (&[], &[]),
    (&[PERSONALISE, INITIAL], &[PERSONALISED, ASSOCIATED]),
    (&[], &[]),
    (
        &[PERSONALISE, INITIAL, LOAD],
        &["8c00", "aa03800101", LOADED],
    ),
    (
        &["8400"],
        &["a716 3014 800101 81026531 820101 830101 a405a003800100"],
    ),
    (&[LOAD], &["a209 800106 810101 820101"]),
];

#[test]
fn a_card_stands_from_run_to_run(rt: HostRuntime) -> Result<(), Fail> {
    let alloc = rt.alloc();
    let mut chip = MemChip::new(alloc, Row::new(alloc))?;
    for (asked, answered) in RUNS {
        let (status, sent) = ran(alloc, &frames(alloc, asked)?, &mut chip)?;
        assert_eq!(rt; status, 0);
        assert!(rt; sent == frames(alloc, answered)?, "behind {}", asked.len());
    }
    Ok(())
}
