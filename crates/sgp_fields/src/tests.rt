use super::*;
use iot_bytes::{ReadError, Row};
use sgp_values::{Address, Eid, EimId, Iccid, Key, Nickname};
use std::alloc::Global;
use std::test::Fail;

/// A list of marks, of any tag.
struct Marks;

impl Listed<()> for Marks {
    ghost use Rattle.sgp_fields.specs.Values.{mark_of};

    ghost entry_of = { λ tag content. mark_of content };

    fn read(_alloc: Global, _tag: u8, content: &[u8]) -> Result<(), ReadError> {
        <() as Content>::of_content(content).ok_or(ReadError::Malformed)
    }
}

#[test]
fn fields_in_order(rt: HostRuntime) -> Result<(), Fail> {
    let alloc = rt.alloc();
    let mut out = Row::new(alloc);
    put_flag(&mut out, 0x80, true)?;
    put_optional::<Key>(&mut out, 0x81, &None)?;
    put_optional(&mut out, 0x82, &EimId::of(b"e").ok())?;
    out.append(&[0x83, 0x02, 0x01, 0x00])?;
    put_mark(&mut out, 0x84, true)?;
    assert_eq!(rt;
        out.as_slice(),
        [128, 1, 1, 130, 1, 101, 131, 2, 1, 0, 132, 0].as_slice()
    );
    let mut fields = Fields::of(out.as_slice());
    assert_eq!(rt; fields.value::<bool>(0x81).is_err(), true);
    assert_eq!(rt; fields.value::<bool>(0x80).ok(), Some(true));
    assert!(rt; matches!(fields.optional::<Key>(0x81), Ok(None)));
    assert_eq!(rt;
        fields.optional::<EimId>(0x82).ok(),
        Some(EimId::of(b"e").ok())
    );
    assert_eq!(rt; fields.number(0x83, 1, 255).is_err(), true);
    assert_eq!(rt; fields.number(0x83, 1, 256).ok(), Some(256));
    assert_eq!(rt; fields.last_mark(0x84).ok(), Some(true));
    Ok(())
}

#[test]
fn contents_of_each_type(rt: HostRuntime) {
    assert_eq!(rt; Iccid::of_content(&[1; 10]), Iccid::of(&[1; 10]).ok());
    assert_eq!(rt; Eid::of_content(&[2; 16]), Eid::of(&[2; 16]).ok());
    assert_eq!(rt; Address::of_content(b"a/b"), Address::of(b"a/b").ok());
    assert_eq!(rt; Nickname::of_content(b"home"), Nickname::of(b"home").ok());
    assert_eq!(rt; Nickname::of_content(&[0xff]), None);
}

#[test]
fn lists_of_marks(rt: HostRuntime) -> Result<(), Fail> {
    let alloc = rt.alloc();
    let lists: [(&[u8], Option<usize>); 5] = [
        (&[], Some(0)),
        (&[0x81, 0x00], Some(1)),
        (&[0x81, 0x00, 0xa0, 0x00], Some(2)),
        (&[0x81, 0x00, 0x81, 0x00, 0x81, 0x00], None),
        (&[0x81, 0x00, 0x81, 0x01, 0x00], None),
    ];
    for (bytes, wanted) in lists {
        let found = list::<(), Marks>(alloc, bytes, 2).ok().map(|row| row.len());
        assert_eq!(rt; found, wanted, "for {bytes:?}");
    }
    Ok(())
}
