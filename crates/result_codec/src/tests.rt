use super::*;
use iot_bytes::{ReadError, Row};
use sgp_der::put_octets;
use small_card::Refused;
use std::alloc::Global;
use std::test::Fail;

/// The result of a first load: number 1, of the eIM `e1`, with one enable that was done.
const FIRST: [u8; 22] = [
    0x30, 0x14, 0x80, 1, 1, 0x81, 2, b'e', b'1', 0x82, 1, 1, 0x83, 1, 1, 0xa4, 5, 0xa0, 3, 0x80, 1,
    0,
];

/// The enable that was done.
const DONE: [u8; 5] = [0xa0, 3, 0x80, 1, 0];

// The octets, so many times.
fn repeated(alloc: Global, octets: &[u8], times: usize) -> Result<Row<u8>, Fail> {
    let mut out = Row::new(alloc);
    for _ in 0..times {
        out.append(octets)?;
    }
    Ok(out)
}

// The first result with other items.
fn with_items(alloc: Global, items: &[u8]) -> Result<Row<u8>, Fail> {
    if items.len() > 100 {
        return Err("too many octets for this test".into());
    }
    let mut fields = Row::new(alloc);
    fields.append(&FIRST[2..15])?;
    put_octets(&mut fields, 0xa4, items)?;
    let mut out = Row::new(alloc);
    put_octets(&mut out, 0x30, fields.as_slice())?;
    Ok(out)
}

// Whether the octets are a result; where they are, it is measured and written as they stand.
fn is_result(alloc: Global, bytes: &[u8]) -> Result<bool, Fail> {
    match read_result(alloc, bytes) {
        Ok(kept) => {
            let mut out = Row::new(alloc);
            write_result(&kept, &mut out)?;
            if out.as_slice() == bytes && result_len(&kept) == bytes.len() {
                Ok(true)
            } else {
                Err("other octets were written".into())
            }
        }
        Err(ReadError::Malformed) => Ok(false),
        Err(ReadError::NoMemory) => Err("memory ran out".into()),
    }
}

/// Items of results.
const ITEMS: [&[u8]; 6] = [
    &[0xa0, 3, 0x80, 1, 2],
    &[0xa2, 3, 0x80, 1, 3],
    &[0xaa, 3, 0x80, 1, 2],
    &[0xa8, 6, 0x80, 1, 0, 0x81, 1, 1],
    &[0xa8, 3, 0x80, 1, 1],
    &[0xa3, 0, 0xab, 0],
];

/// What no result has as its items.
const NO_ITEMS: [&[u8]; 7] = [
    // codes above the greatest
    &[0xa0, 3, 0x80, 1, 3],
    &[0xa9, 3, 0x80, 1, 2],
    // an add without its association, and one with an association that wasn't done
    &[0xa8, 3, 0x80, 1, 0],
    &[0xa8, 6, 0x80, 1, 1, 0x81, 1, 1],
    // the tag of no item, a mark among the items, no item
    &[0xa4, 0],
    &[0xa0, 3, 0x80, 1, 0, 0x85, 0],
    &[],
];

#[test]
fn items_in_a_result(rt: HostRuntime) -> Result<(), Fail> {
    let alloc = rt.alloc();
    for items in ITEMS {
        let bytes = with_items(alloc, items)?;
        assert!(rt; is_result(alloc, bytes.as_slice())?, "for {items:?}");
    }
    for items in NO_ITEMS {
        let bytes = with_items(alloc, items)?;
        assert!(rt; !is_result(alloc, bytes.as_slice())?, "for {items:?}");
    }
    Ok(())
}

#[test]
fn as_many_items(rt: HostRuntime) -> Result<(), Fail> {
    let alloc = rt.alloc();
    for (times, wanted) in [(1, true), (8, true), (9, false)] {
        let items = repeated(alloc, &DONE, times)?;
        let bytes = with_items(alloc, items.as_slice())?;
        assert_eq!(rt; is_result(alloc, bytes.as_slice())?, wanted, "for {times}");
    }
    Ok(())
}

#[test]
fn fields_of_a_result(rt: HostRuntime) -> Result<(), Fail> {
    let Ok(first) = read_result_content(rt.alloc(), &FIRST[2..]) else {
        return Err("the fields of a result were expected".into());
    };
    assert_eq!(rt; result_len(&first), 22);
    Ok(())
}

// A line with the longest identifier and address and the greatest numbers.
fn greatest_line(out: &mut Row<u8>, letter: u8) -> Result<(), Fail> {
    out.append(&[0x30, 0x82, 0x01, 0x17, 0x80, 0x81, 0x80])?;
    out.append(&[letter; 128])?;
    out.append(&[0x81, 0x81, 0x80])?;
    out.append(&[b'/'; 128])?;
    out.append(&[0x82, 0x05, 0x00, 0xff, 0xff, 0xff, letter])?;
    out.append(&[0x83, 0x08, 0x7f, 0xff, 0xff, 0xff, 0xff, 0xff, 0xff, 0xff])?;
    Ok(())
}

fn eight_lines(alloc: Global) -> Result<Row<u8>, Fail> {
    let mut out = Row::new(alloc);
    for letter in b"abcdefgh" {
        greatest_line(&mut out, *letter)?;
    }
    Ok(out)
}

#[test]
fn greatest_list(rt: HostRuntime) -> Result<(), Fail> {
    let alloc = rt.alloc();
    let lines = eight_lines(alloc)?;
    let Ok(rows) = read_eim_lines(alloc, lines.as_slice()) else {
        return Err("eight lines were expected".into());
    };
    let mut again = Row::new(alloc);
    write_eim_lines(rows.as_slice(), &mut again)?;
    assert_eq!(rt; again.as_slice(), lines.as_slice());
    assert_eq!(rt; eim_lines_len(rows.as_slice()), 2264);
    Ok(())
}

// The result with eight greatest lists, and each field as long as it may be.
fn greatest(alloc: Global, lines: &[u8]) -> Result<Row<u8>, Fail> {
    let mut out = Row::new(alloc);
    out.append(&[0x30, 0x82, 0x47, 0x81])?;
    out.append(&[0x80, 0x05, 0x00, 0xff, 0xff, 0xff, 0xff])?;
    out.append(&[0x81, 0x81, 0x80])?;
    out.append(&[b'e'; 128])?;
    out.append(&[0x82, 0x05, 0x00, 0xff, 0xff, 0xff, 0xff])?;
    out.append(&[0x83, 0x08, 0x7f, 0xff, 0xff, 0xff, 0xff, 0xff, 0xff, 0xff])?;
    out.append(&[0xa4, 0x82, 0x46, 0xe0])?;
    for _ in 0..8 {
        out.append(&[0xab, 0x82, 0x08, 0xd8])?;
        out.append(lines)?;
    }
    out.append(&[0x85, 0x00])?;
    Ok(out)
}

#[test]
fn greatest_result(rt: HostRuntime) -> Result<(), Fail> {
    let alloc = rt.alloc();
    let lines = eight_lines(alloc)?;
    let bytes = greatest(alloc, lines.as_slice())?;
    assert_eq!(rt; bytes.len(), 18_309);
    assert!(rt; is_result(alloc, bytes.as_slice())?);
    Ok(())
}

// Two profiles, each of ten equal octets as its ICCID, and a flag.
fn two_profiles(alloc: Global, first: (u8, u8), second: (u8, u8)) -> Result<Row<u8>, Fail> {
    let mut out = Row::new(alloc);
    for (iccid, enabled) in [first, second] {
        out.append(&[0x30, 0x12, 0x80, 0x0a])?;
        out.append(&[iccid; 10])?;
        out.append(&[0x81, 0x01, enabled, 0x82, 0x01, b'n'])?;
    }
    Ok(out)
}

#[test]
fn lists_of_profiles(rt: HostRuntime) -> Result<(), Fail> {
    let alloc = rt.alloc();
    let cases = [
        ((1, 1), (2, 0), true),
        ((1, 0), (2, 0), true),
        ((1, 1), (2, 1), false),
        ((1, 1), (1, 0), false),
        ((1, 0), (2, 2), false),
    ];
    for (first, second, wanted) in cases {
        let bytes = two_profiles(alloc, first, second)?;
        let Ok(rows) = read_profiles(alloc, bytes.as_slice()) else {
            assert!(rt; !wanted, "for {first:?} and {second:?}");
            continue;
        };
        let mut out = Row::new(alloc);
        write_profiles(rows.as_slice(), &mut out)?;
        assert!(rt; wanted, "for {first:?} and {second:?}");
        assert_eq!(rt; out.as_slice(), bytes.as_slice());
        assert_eq!(rt; profiles_len(rows.as_slice()), bytes.len());
    }
    Ok(())
}

#[test]
fn refusals(rt: HostRuntime) -> Result<(), Fail> {
    let cases = [
        (6, 2, 1, true),
        (6, 0, 0, true),
        (1, 0, 0, true),
        (8, 0, 0, true),
        (9, 0, 0, false),
        (0, 0, 0, false),
        (5, 1, 0, false),
        (5, 0, 1, false),
    ];
    for (code, kept, received, wanted) in cases {
        let bytes = [0x80, 1, code, 0x81, 1, kept, 0x82, 1, received];
        let refused = Refused {
            code,
            kept: u64::from(kept),
            received: u64::from(received),
        };
        assert_eq!(rt;
            read_refusal(&bytes).ok() == Some(refused),
            wanted,
            "for {refused:?}"
        );
        let mut out = Row::new(rt.alloc());
        write_refusal(&refused, &mut out)?;
        assert_eq!(rt; out.as_slice(), bytes.as_slice());
        assert_eq!(rt; refusal_len(&refused), 9);
    }
    Ok(())
}
