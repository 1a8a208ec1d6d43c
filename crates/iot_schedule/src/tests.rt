use super::*;
use iot_bytes::{NoMemory, ReadError, Row};
use sgp_values::{EimId, Iccid};
use small_card::{Body, Psmo};
use std::alloc::Global;
use std::test::Fail;

fn written(alloc: Global, line: &Line) -> Result<Row<u8>, NoMemory> {
    let mut out = Row::new(alloc);
    write_step(line, &mut out)?;
    Ok(out)
}

/// Whether the text is malformed, or what is written for the line that it is read as.
fn is_exact(alloc: Global, text: &[u8]) -> Result<bool, Fail> {
    match read_step(alloc, text) {
        Ok(line) => Ok(written(alloc, &line)?.as_slice() == text),
        Err(ReadError::Malformed) => Ok(true),
        Err(ReadError::NoMemory) => Err("memory ran out".into()),
    }
}

/// Each line of the table, and each form that its words have.
const LINES: [&[u8]; 26] = [
    b"eim e1",
    b"initial e1 @coaps://e1.example #04aa",
    b"initial e1 @ #",
    b"bind e1 4294967295 9223372036854775807",
    b"order e1 enable:98440000000000000001 enable!:984400000000000000ab \
        disable:98440000000000000001 delete:98440000000000000001 list",
    b"order e1 add:e2@coap://x#04 update:e2 update:e2@a update:e2#04 update:e2@a@b#04 drop:e2 eims",
    b"skip e1",
    b"poll Manager_1.x-y",
    b"up 0",
    b"up last",
    b"down 4294967295",
    b"down last bad",
    b"load good -",
    b"load bad 00ff",
    b"push",
    b"probe ok",
    b"probe fail",
    b"rollback",
    b"restart",
    b"cut 0 old",
    b"cut 4294967295 junk",
    b"boot",
    b"show",
    b"kept e1",
    b"detach 4294967295",
    b"modems",
];

#[test]
fn each_line_read_and_written(rt: HostRuntime) -> Result<(), Fail> {
    let alloc = rt.alloc();
    for text in LINES {
        let line = read_step(alloc, text)?;
        let again = written(alloc, &line)?;
        assert!(rt; again.as_slice() == text, "for {text:?}");
        assert!(rt; read_step(alloc, again.as_slice())? == line, "for {text:?}");
        for end in 0..text.len() {
            assert!(rt; is_exact(alloc, &text[..end])?, "for {text:?} up to {end}");
        }
    }
    Ok(())
}

const MALFORMED: [&[u8]; 30] = [
    b"",
    b" ",
    b"push ",
    b" push",
    b"PUSH",
    b"eim",
    b"eim  e1",
    b"eim e1 e2",
    b"initial e1 @",
    b"initial e1 @ 04",
    b"initial e1 @ #0",
    b"bind e1 0 0",
    b"bind e1 01 0",
    b"bind e1 +1 0",
    b"bind e1 last 0",
    b"bind e1 4294967296 0",
    b"bind e1 1 9223372036854775808",
    b"order e1",
    b"order e1 list eims",
    b"order e1 list list list list list list list list list",
    b"order e1 enable:9844000000000000001",
    b"order e1 update:e2#04@a",
    b"up 4294967296",
    b"down last good",
    b"load good",
    b"load good 0",
    b"probe",
    b"cut 0 OLD",
    b"cut 4294967296 old",
    b"detach last",
];

#[test]
fn malformed_lines(rt: HostRuntime) -> Result<(), Fail> {
    let alloc = rt.alloc();
    for text in MALFORMED {
        assert!(rt;
            matches!(read_step(alloc, text), Err(ReadError::Malformed)),
            "for {text:?}"
        );
    }
    Ok(())
}

#[test]
fn digits_of_both_cases(rt: HostRuntime) -> Result<(), Fail> {
    let alloc = rt.alloc();
    let Line::Order { id, body } = read_step(alloc, b"order e1 enable!:984400000000000000aB")?
    else {
        return Err("an order was expected".into());
    };
    let Body::Psmos(ops) = body else {
        return Err("operations on profiles were expected".into());
    };
    let iccid = Iccid::of(&[0x98, 0x44, 0, 0, 0, 0, 0, 0, 0, 0xab])?;
    let rollback = true;
    assert_eq!(rt; id, EimId::of(b"e1")?);
    assert_eq!(rt;
        ops.as_slice(),
        [Psmo::Enable { iccid, rollback }].as_slice()
    );
    Ok(())
}

#[test]
fn devices(rt: HostRuntime) -> Result<(), Fail> {
    let alloc = rt.alloc();
    let text: &[u8] = b"device 000102030405060708090a0b0c0d0e0f +98440000000000000001%686f6d65 \
        -98440000000000000002%";
    let device = read_device(alloc, text)?;
    assert_eq!(rt; device.profiles.len(), 2);
    let mut out = Row::new(alloc);
    write_device(&device, &mut out)?;
    assert!(rt; out.as_slice() == text);
    let malformed: [&[u8]; 5] = [
        b"device",
        b"device 0001",
        b"device 000102030405060708090a0b0c0d0e0f 98440000000000000001%",
        b"device 000102030405060708090a0b0c0d0e0f -98440000000000000001% -98440000000000000001%",
        b"device 000102030405060708090a0b0c0d0e0f +98440000000000000001% +98440000000000000002%",
    ];
    for text in malformed {
        assert!(rt;
            matches!(read_device(alloc, text), Err(ReadError::Malformed)),
            "for {text:?}"
        );
    }
    Ok(())
}

#[test]
fn seven_lines_of_start_one(rt: HostRuntime) -> Result<(), Fail> {
    let alloc = rt.alloc();
    let expected: [&[u8]; 7] = [
        b"device 000102030405060708090a0b0c0d0e0f -98440000000000000001% \
            -98440000000000000002% -98440000000000000003%",
        b"eim e1",
        b"initial e1 @ #",
        b"bind e1 1 0",
        b"up last",
        b"show",
        b"order e1 enable:98440000000000000002",
    ];
    let mut maker = Maker::new(1);
    for (number, text) in (1..).zip(expected) {
        let mut out = Row::new(alloc);
        maker.next_line(number, &mut out)?;
        assert!(rt; out.as_slice() == text, "line {number}");
    }
    Ok(())
}
