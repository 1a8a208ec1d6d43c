use super::*;
use iot_bytes::{ReadError, Row};
use std::alloc::Global;
use std::test::Fail;

/// A Poll, a result of one item, a refusal without counters and a replay with them.
const UP: [&[u8]; 4] = [
    &[
        0xa0, 0x12, 0x80, 0x10, 0, 1, 2, 3, 4, 5, 6, 7, 8, 9, 10, 11, 12, 13, 14, 15,
    ],
    &[
        0xa1, 0x15, 0x30, 0x13, 0x80, 0x01, 0x01, 0x81, 0x01, b'e', 0x82, 0x01, 0x01, 0x83, 0x01,
        0x01, 0xa4, 0x05, 0xa0, 0x03, 0x80, 0x01, 0x00,
    ],
    &[
        0xa2, 0x09, 0x80, 0x01, 0x08, 0x81, 0x01, 0x00, 0x82, 0x01, 0x00,
    ],
    &[
        0xa2, 0x0a, 0x80, 0x01, 0x06, 0x81, 0x02, 0x00, 0x80, 0x82, 0x01, 0x05,
    ],
];

/// A package, word that none waits, and the acknowledgement of a result.
const DOWN: [&[u8]; 4] = [
    &[0x80, 0x00],
    &[0x80, 0x03, 0x30, 0x01, 0xff],
    &[0x81, 0x00],
    &[0xa2, 0x07, 0x80, 0x05, 0x00, 0xff, 0xff, 0xff, 0xff],
];

/// Whether the message that the octets are is written as they are.
fn is_up(alloc: Global, bytes: &[u8]) -> Result<bool, Fail> {
    let Ok(message) = read_to_eim(alloc, bytes) else {
        return Ok(false);
    };
    let mut out = Row::new(alloc);
    write_to_eim(&message, &mut out)?;
    Ok(out.as_slice() == bytes && to_eim_len(&message) == bytes.len())
}

/// The same of messages to the assistant.
fn is_down(alloc: Global, bytes: &[u8]) -> Result<bool, Fail> {
    let Ok(message) = read_to_ipa(alloc, bytes) else {
        return Ok(false);
    };
    let mut out = Row::new(alloc);
    write_to_ipa(&message, &mut out)?;
    Ok(out.as_slice() == bytes && to_ipa_len(&message) == bytes.len())
}

#[test]
fn messages(rt: HostRuntime) -> Result<(), Fail> {
    let alloc = rt.alloc();
    for bytes in UP {
        assert!(rt; is_up(alloc, bytes)?, "for {bytes:?}");
        for at in 0..bytes.len() {
            let cut = read_to_eim(alloc, &bytes[..at]);
            assert!(rt;
                matches!(cut, Err(ReadError::Malformed)),
                "at {at} of {bytes:?}"
            );
        }
    }
    for bytes in DOWN {
        assert!(rt; is_down(alloc, bytes)?, "for {bytes:?}");
        for at in 0..bytes.len() {
            let cut = read_to_ipa(alloc, &bytes[..at]);
            assert!(rt;
                matches!(cut, Err(ReadError::Malformed)),
                "at {at} of {bytes:?}"
            );
        }
    }
    Ok(())
}
