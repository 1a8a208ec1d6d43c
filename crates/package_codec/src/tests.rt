ghost use Rattle.small_card.specs.Ranges.{IsSigned};

use super::*;
use iot_bytes::{NoMemory, ReadError, Row};
use sgp_values::{Eid, EimId, Iccid, Key};
use small_card::{Body, Eco, Psmo, Signed};
use std::alloc::Global;
use std::test::Fail;

/// A signed package of the eIM `e1` that enables one profile.
const FIRST: [u8; 50] = [
    0x30, 0x30, 0x30, 0x2c, 0x80, 0x02, b'e', b'1', 0x81, 0x10, 0, 1, 2, 3, 4, 5, 6, 7, 8, 9, 10,
    11, 12, 13, 14, 15, 0x82, 0x01, 0x01, 0x83, 0x01, 0x01, 0xa4, 0x0e, 0xa0, 0x0c, 0x80, 0x0a,
    0x98, 0x44, 0, 0, 0, 0, 0, 0, 0, 0x01, 0x86, 0x00,
];

/// The longest identifier, address, key or signature.
const LONGEST: [u8; 128] = [b'm'; 128];

/// The longest package: eight adds, and each field as long as it may be.
fn longest(alloc: Global) -> Result<Row<u8>, NoMemory> {
    let mut out = Row::new(alloc);
    out.append(&[0x30, 0x82, 0x0d, 0x99, 0x30, 0x82, 0x0d, 0x12])?;
    out.append(&[0x80, 0x81, 0x80])?;
    out.append(&LONGEST)?;
    out.append(&FIRST[8..26])?;
    out.append(&[0x82, 0x05, 0x00, 0xff, 0xff, 0xff, 0xff])?;
    out.append(&[0x83, 0x08, 0x7f, 0xff, 0xff, 0xff, 0xff, 0xff, 0xff, 0xff])?;
    out.append(&[0xa5, 0x82, 0x0c, 0x68])?;
    for _ in 0..8 {
        out.append(&[0xa8, 0x82, 0x01, 0x89])?;
        for tag in [0x80, 0x81, 0x82] {
            out.append(&[tag, 0x81, 0x80])?;
            out.append(&LONGEST)?;
        }
    }
    out.append(&[0x86, 0x81, 0x80])?;
    out.append(&LONGEST)?;
    Ok(out)
}

fn written(alloc: Global, value: &Signed) -> Result<Row<u8>, NoMemory>
    requires { IsSigned value.now }
{
    let mut out = Row::new(alloc);
    write_signed(value, &mut out)?;
    Ok(out)
}

fn is_malformed(alloc: Global, bytes: &[u8]) -> bool {
    matches!(read_signed(alloc, bytes), Err(ReadError::Malformed))
}

/// Whether the octets are malformed, or what is written for the package that they are read as.
fn is_exact(alloc: Global, bytes: &[u8]) -> Result<bool, Fail> {
    match read_signed(alloc, bytes) {
        Ok(value) => Ok(written(alloc, &value)?.as_slice() == bytes),
        Err(ReadError::Malformed) => Ok(true),
        Err(ReadError::NoMemory) => Err("memory ran out".into()),
    }
}

#[test]
fn first_package(rt: HostRuntime) -> Result<(), Fail> {
    let alloc = rt.alloc();
    let Ok(value) = read_signed(alloc, &FIRST) else {
        return Err("a package was expected".into());
    };
    assert_eq!(rt; value.package.eim, EimId::of(b"e1")?);
    assert_eq!(rt; value.package.eid, Eid::of(&FIRST[10..26])?);
    assert_eq!(rt; value.package.association, 1);
    assert_eq!(rt; value.package.counter, 1);
    assert!(rt; value.signature.is_empty());
    let Body::Psmos(ops) = &value.package.body else {
        return Err("operations on profiles were expected".into());
    };
    let iccid = Iccid::of(&FIRST[38..48])?;
    assert_eq!(rt;
        ops.as_slice(),
        [Psmo::Enable {
            iccid,
            rollback: false
        }]
        .as_slice()
    );
    assert_eq!(rt; signed_len(&value), 50);
    assert_eq!(rt; written(alloc, &value)?.as_slice(), FIRST.as_slice());
    Ok(())
}

#[test]
fn longest_package(rt: HostRuntime) -> Result<(), Fail> {
    let alloc = rt.alloc();
    let mut bytes = longest(alloc)?;
    let Ok(value) = read_signed(alloc, bytes.as_slice()) else {
        return Err("a package was expected".into());
    };
    assert_eq!(rt; bytes.len(), 3485);
    assert_eq!(rt; signed_len(&value), 3485);
    assert_eq!(rt; value.package.association, 4_294_967_295);
    assert_eq!(rt; value.package.counter, 9_223_372_036_854_775_807);
    assert!(rt; written(alloc, &value)?.as_slice() == bytes.as_slice());
    bytes.append(&[0])?;
    assert!(rt; is_malformed(alloc, bytes.as_slice()));
    Ok(())
}

#[test]
fn changed_octets(rt: HostRuntime) -> Result<(), Fail> {
    let alloc = rt.alloc();
    for at in 0..FIRST.len() {
        assert!(rt; is_malformed(alloc, &FIRST[..at]), "at {at}");
        for octet in [0x00, 0x01, 0x31, 0x7f, 0x80, 0xa5, 0xff] {
            let mut bytes = FIRST;
            bytes[at] = octet;
            assert!(rt; is_exact(alloc, &bytes)?, "at {at}: {octet}");
        }
    }
    Ok(())
}

#[test]
fn padded_counter(rt: HostRuntime) -> Result<(), Fail> {
    let alloc = rt.alloc();
    for (octets, is_padded) in [([0x00, 0x01], true), ([0x01, 0x00], false)] {
        let mut bytes = Row::new(alloc);
        bytes.append(&[0x30, 0x31, 0x30, 0x2d])?;
        bytes.append(&FIRST[4..29])?;
        bytes.append(&[0x83, 0x02])?;
        bytes.append(&octets)?;
        bytes.append(&FIRST[32..])?;
        assert_eq!(rt; is_malformed(alloc, bytes.as_slice()), is_padded);
    }
    Ok(())
}

#[test]
fn bodies(rt: HostRuntime) -> Result<(), Fail> {
    let alloc = rt.alloc();
    let id = EimId::of(b"e")?;
    let update = [0xa5, 0x07, 0xa9, 0x05, 0x80, 0x01, b'e', 0x82, 0x00];
    let Ok(Body::Ecos(ops)) = read_body(alloc, &update) else {
        return Err("operations on eIMs were expected".into());
    };
    let key = Key::of(&[]).ok();
    assert_eq!(rt;
        ops.as_slice(),
        [Eco::Update {
            id,
            address: None,
            key
        }]
        .as_slice()
    );
    let malformed: [&[u8]; 6] = [
        &[0xa5, 0x81, 0x02, 0x8b, 0x00],
        &[0xa4, 0x00],
        &[0xa4, 0x02, 0x8b, 0x00],
        &[0xa5, 0x02, 0x83, 0x00],
        &[0xa5, 0x02, 0x8b, 0x00, 0x00],
        &[0xa6, 0x02, 0x8b, 0x00],
    ];
    for bytes in malformed {
        assert!(rt;
            matches!(read_body(alloc, bytes), Err(ReadError::Malformed)),
            "for {bytes:?}"
        );
    }
    Ok(())
}
