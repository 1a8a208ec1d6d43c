use super::*;
use iot_bytes::Row;
use std::alloc::Global;
use std::test::Fail;

// A row of so many octets 00.
fn zeros(alloc: Global, len: usize) -> Result<Row<u8>, Fail> {
    let mut row = Row::new(alloc);
    for _ in 0..len {
        if row.push(0).is_err() {
            return Err("memory ran out".into());
        }
    }
    Ok(row)
}

// The lengths at which the form changes, with their heads as X.690 spells them.
#[test]
fn heads_at_the_bounds(rt: HostRuntime) -> Result<(), Fail> {
    let heads: [(usize, &[u8]); 6] = [
        (127, &[0x30, 0x7f]),
        (128, &[0x30, 0x81, 0x80]),
        (255, &[0x30, 0x81, 0xff]),
        (256, &[0x30, 0x82, 0x01, 0x00]),
        (65_535, &[0x30, 0x82, 0xff, 0xff]),
        (65_536, &[0x30, 0x83, 0x01, 0x00, 0x00]),
    ];
    for (len, head) in heads {
        let mut out = Row::new(rt.alloc());
        put_head(&mut out, 0x30, len)?;
        assert_eq!(rt; out.as_slice(), head, "at {len}");
        assert_eq!(rt; head_len(len), head.len(), "at {len}");
        let content = zeros(rt.alloc(), len)?;
        out.append(content.as_slice())?;
        let read = only(out.as_slice(), 0x30).map(|content| content.len());
        assert_eq!(rt; read, Some(len), "at {len}");
    }
    Ok(())
}

// The numbers at which the content grows, as X.690 spells them.
#[test]
fn integers_at_the_bounds(rt: HostRuntime) -> Result<(), Fail> {
    let integers: [(u64, &[u8]); 6] = [
        (0, &[0x00]),
        (127, &[0x7f]),
        (128, &[0x00, 0x80]),
        (255, &[0x00, 0xff]),
        (
            u64::MAX / 2,
            &[0x7f, 0xff, 0xff, 0xff, 0xff, 0xff, 0xff, 0xff],
        ),
        (
            u64::MAX,
            &[0x00, 0xff, 0xff, 0xff, 0xff, 0xff, 0xff, 0xff, 0xff],
        ),
    ];
    for (n, content) in integers {
        let mut out = Row::new(rt.alloc());
        put_uint(&mut out, 0x82, n)?;
        assert_eq!(rt; only(out.as_slice(), 0x82), Some(content), "at {n}");
        assert_eq!(rt; uint(content), Some(n), "at {n}");
        assert_eq!(rt; uint_len(n), content.len(), "at {n}");
    }
    Ok(())
}

// Octets that begin with no element, and the fault that is met first.
#[test]
fn faults_from_the_left(rt: HostRuntime) {
    let faults: [(&[u8], DerFault); 9] = [
        (&[], DerFault::Short),
        (&[0x1f], DerFault::Tag),
        (&[0x30], DerFault::Short),
        (&[0x30, 0x80], DerFault::LongForm),
        (&[0x30, 0x84, 0x01], DerFault::LongForm),
        (&[0x30, 0x82, 0x00], DerFault::Short),
        (&[0x30, 0x81, 0x7f], DerFault::LongForm),
        (&[0x30, 0x83, 0x00, 0xff, 0xff], DerFault::LongForm),
        (&[0x30, 0x02, 0x00], DerFault::Short),
    ];
    for (bytes, fault) in faults {
        assert_eq!(rt; next(bytes).err(), Some(fault), "at {bytes:?}");
    }
}

// Contents that spell no number from 0 to 2^64 - 1.
#[test]
fn contents_of_no_number(rt: HostRuntime) {
    let contents: [&[u8]; 5] = [
        &[],
        &[0x80],
        &[0x00, 0x7f],
        &[0x01, 0, 0, 0, 0, 0, 0, 0, 0],
        &[0x00, 0xff, 0, 0, 0, 0, 0, 0, 0, 0],
    ];
    for content in contents {
        assert_eq!(rt; uint(content), None, "at {content:?}");
    }
}

#[test]
fn an_element_and_the_rest(rt: HostRuntime) -> Result<(), Fail> {
    let mut out = Row::new(rt.alloc());
    put_octets(&mut out, 0x80, b"ab")?;
    out.append(&[0x05])?;
    let bytes = out.as_slice();
    let Ok(found) = next(bytes) else {
        return Err("an element was expected".into());
    };
    assert_eq!(rt; found.tag, 0x80);
    assert_eq!(rt; found.content, b"ab".as_slice());
    assert_eq!(rt; found.rest, [0x05].as_slice());
    assert_eq!(rt;
        field(bytes, 0x80).map(|found| found.content),
        Some(b"ab".as_slice())
    );
    assert!(rt; field(bytes, 0x81).is_none());
    assert_eq!(rt; only(bytes, 0x80), None);
    Ok(())
}
