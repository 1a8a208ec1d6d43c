use super::*;
use iot_bytes::{ReadError, Row};
use std::alloc::Global;
use std::test::Fail;

// Whether the octets are a command; where they are, it is measured and written as they stand.
fn is_command(alloc: Global, bytes: &[u8]) -> Result<bool, Fail> {
    match read_command(alloc, bytes) {
        Ok(value) => {
            let mut out = Row::new(alloc);
            write_command(&value, &mut out)?;
            if out.as_slice() == bytes && command_len(&value) == bytes.len() {
                Ok(true)
            } else {
                Err("other octets were written".into())
            }
        }
        Err(ReadError::Malformed) => Ok(false),
        Err(ReadError::NoMemory) => Err("memory ran out".into()),
    }
}

// Whether the octets are an answer; where they are, it is measured and written as they stand.
fn is_answer(alloc: Global, bytes: &[u8]) -> Result<bool, Fail> {
    match read_answer(alloc, bytes) {
        Ok(value) => {
            let mut out = Row::new(alloc);
            write_answer(&value, &mut out)?;
            if out.as_slice() == bytes && answer_len(&value) == bytes.len() {
                Ok(true)
            } else {
                Err("other octets were written".into())
            }
        }
        Err(ReadError::Malformed) => Ok(false),
        Err(ReadError::NoMemory) => Err("memory ran out".into()),
    }
}

/// Commands without a list.
const COMMANDS: [&[u8]; 7] = [
    &[0xa1, 6, 0x80, 1, 1, 0x81, 1, 0],
    &[0xa1, 5, 0x80, 1, 0, 0x81, 0],
    &[0x82, 0],
    &[0xa3, 3, 0x80, 1, 1],
    &[0x84, 0],
    &[0x85, 0],
    &[0xa6, 8, 0x80, 2, b'e', b'1', 0x81, 0, 0x82, 0],
];

/// Frames that are no command.
const NO_COMMANDS: [&[u8]; 8] = [
    // number 0, a padded number, a long form below 128, an empty Remove
    &[0xa3, 3, 0x80, 1, 0],
    &[0xa3, 4, 0x80, 2, 0, 1],
    &[0xa3, 0x81, 3, 0x80, 1, 0],
    &[0xa3, 0],
    // a content where there is none, octets behind the end, a bool of 2, no command's tag
    &[0x84, 1, 0],
    &[0xa3, 3, 0x80, 1, 1, 0],
    &[0xa1, 6, 0x80, 1, 2, 0x81, 1, 0],
    &[0x86, 0],
];

/// Answers without a result.
const ANSWERS: [&[u8]; 13] = [
    &[0x80, 0],
    &[0xa2, 9, 0x80, 1, 6, 0x81, 1, 1, 0x82, 1, 1],
    &[0xa3, 3, 0x80, 1, 2],
    &[0x84, 0],
    &[0x85, 0],
    &[0x86, 0],
    &[0xa7, 0],
    &[
        0xa8, 13, 0x30, 11, 0x80, 1, b'a', 0x81, 0, 0x82, 1, 1, 0x83, 1, 0,
    ],
    &[0xa8, 0],
    &[0xa9, 3, 0x80, 1, 1],
    &[0xaa, 3, 0x80, 1, 2],
    &[0x8b, 0],
    &[0x8c, 0],
];

/// Frames that are no answer.
const NO_ANSWERS: [&[u8]; 6] = [
    // counters with another code than 6, code 9
    &[0xa2, 9, 0x80, 1, 5, 0x81, 1, 1, 0x82, 1, 0],
    &[0xa2, 9, 0x80, 1, 9, 0x81, 1, 0, 0x82, 1, 0],
    // a content where there is none, code 3 of Initial, association 0, a stop record
    &[0x8b, 1, 0],
    &[0xaa, 3, 0x80, 1, 3],
    &[0xa9, 3, 0x80, 1, 0],
    &[0xad, 6, 0x80, 1, 5, 0x81, 1, 3],
];

/// A profile whose ICCID ends in the octet, without a nickname, enabled where the flag is 1.
fn put_profile(out: &mut Row<u8>, last: u8, enabled: u8) -> Result<(), Fail> {
    out.append(&[0x30, 0x11, 0x80, 0x0a, 0x98, 0, 0, 0, 0, 0, 0, 0, 0, last])?;
    out.append(&[0x81, 1, enabled, 0x82, 0])?;
    Ok(())
}

// A Personalise with two profiles.
fn personalise(alloc: Global, first: (u8, u8), second: (u8, u8)) -> Result<Row<u8>, Fail> {
    let mut out = Row::new(alloc);
    out.append(&[0xa0, 0x3a, 0x80, 0x10, 0x89, 0x04, 0x90, 0x32])?;
    out.append(&[0, 0, 0, 0, 0, 0, 0, 0, 0, 0, 0, 1, 0xa1, 0x26])?;
    put_profile(&mut out, first.0, first.1)?;
    put_profile(&mut out, second.0, second.1)?;
    Ok(out)
}

#[test]
fn commands(rt: HostRuntime) -> Result<(), Fail> {
    let alloc = rt.alloc();
    for frame in COMMANDS {
        assert!(rt; is_command(alloc, frame)?, "for {frame:?}");
    }
    for frame in NO_COMMANDS {
        assert!(rt; !is_command(alloc, frame)?, "for {frame:?}");
    }
    // two enabled profiles, one ICCID twice
    for (second, enabled, wanted) in [(0xb2, 0, true), (0xb2, 1, false), (0xa1, 0, false)] {
        let frame = personalise(alloc, (0xa1, 1), (second, enabled))?;
        assert_eq!(rt; is_command(alloc, frame.as_slice())?, wanted);
    }
    Ok(())
}

// The result of this number, of the eIM `e1`, with one enable that was done, and its mark.
fn put_result(out: &mut Row<u8>, seq: u8, mark: &[u8]) -> Result<(), Fail> {
    if mark.len() > 2 {
        return Err("no mark".into());
    }
    out.append(&[0x30, 20 + mark.len() as u8, 0x80, 1, seq])?;
    out.append(&[0x81, 2, b'e', b'1', 0x82, 1, 1, 0x83, 1, 1])?;
    out.append(&[0xa4, 5, 0xa0, 3, 0x80, 1, 0])?;
    out.append(mark)?;
    Ok(())
}

// An answer with two results, of which the second is marked.
fn two_results(alloc: Global, first: u8, second: u8) -> Result<Row<u8>, Fail> {
    let mut out = Row::new(alloc);
    out.append(&[0xa7, 46])?;
    put_result(&mut out, first, &[])?;
    put_result(&mut out, second, &[0x85, 0])?;
    Ok(out)
}

#[test]
fn answers(rt: HostRuntime) -> Result<(), Fail> {
    let alloc = rt.alloc();
    for frame in ANSWERS {
        assert!(rt; is_answer(alloc, frame)?, "for {frame:?}");
    }
    for frame in NO_ANSWERS {
        assert!(rt; !is_answer(alloc, frame)?, "for {frame:?}");
    }
    // rising, falling and equal numbers
    for (first, second, wanted) in [(1, 2, true), (3, 2, false), (2, 2, false)] {
        let frame = two_results(alloc, first, second)?;
        assert_eq!(rt; is_answer(alloc, frame.as_slice())?, wanted);
    }
    let mut loaded = Row::new(alloc);
    loaded.append(&[0xa1, 22])?;
    put_result(&mut loaded, 1, &[])?;
    assert!(rt; is_answer(alloc, loaded.as_slice())?);
    Ok(())
}

#[test]
fn stop_record(rt: HostRuntime) -> Result<(), Fail> {
    let mut out = Row::new(rt.alloc());
    out.append(&[7])?;
    write_stopped(5, 300, &mut out)?;
    assert_eq!(rt;
        out.as_slice(),
        [7, 0xad, 0x07, 0x80, 1, 5, 0x81, 2, 0x01, 0x2c].as_slice()
    );
    Ok(())
}
