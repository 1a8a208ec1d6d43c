ghost use Rattle.std.specs.Prelude.{◌≡◌, ◌↔◌, IsTrue};
ghost use Rattle.std.specs.Ordering.{nat_cmp};
ghost use Rattle.std.specs.Cmp.Lexicographic.{slice_cmp};

use super::*;
use std::cmp::Ordering;
use std::test::Fail;

const ICCID: [u8; 10] = [0x98, 0x44, 0, 0, 0, 0, 0, 0, 0, 1];

const EID: [u8; 16] = [0, 1, 2, 3, 4, 5, 6, 7, 8, 9, 10, 11, 12, 13, 14, 15];

#[test]
fn values_give_their_octets_back(rt: HostRuntime) -> Result<(), Fail> {
    let iccid = Iccid::of(&ICCID)?;
    assert_eq!(rt; iccid.octets(), ICCID.as_slice());
    let eid = Eid::of(&EID)?;
    assert_eq!(rt; eid.octets(), EID.as_slice());
    let id = EimId::of(b"eim-1.example_A")?;
    assert_eq!(rt; id.octets(), b"eim-1.example_A".as_slice());
    let address = Address::of(b"coaps://eim.example:5684/a?b")?;
    assert_eq!(rt;
        address.octets(),
        b"coaps://eim.example:5684/a?b".as_slice()
    );
    let key = Key::of(b"\x04\x00\xff")?;
    assert_eq!(rt; key.octets(), b"\x04\x00\xff".as_slice());
    let nickname = Nickname::of(b"Z\xc3\xa4hler 7 \xe2\x82\xac")?;
    assert_eq!(rt;
        nickname.octets(),
        b"Z\xc3\xa4hler 7 \xe2\x82\xac".as_slice()
    );
    Ok(())
}

// Whether an ICCID, an EID, an identifier, an address, a key and a nickname is made of these
// octets.
fn accepted(octets: &[u8]) -> [bool; 6] {
    [
        Iccid::of(octets).is_ok(),
        Eid::of(octets).is_ok(),
        EimId::of(octets).is_ok(),
        Address::of(octets).is_ok(),
        Key::of(octets).is_ok(),
        Nickname::of(octets).is_ok(),
    ]
}

#[test]
fn lengths_at_their_edges(rt: HostRuntime) -> Result<(), Fail> {
    let letters = [b'a'; 129];
    for (count, want) in [
        (0, [false, false, false, true, true, true]),
        (1, [false, false, true, true, true, true]),
        (9, [false, false, true, true, true, true]),
        (10, [true, false, true, true, true, true]),
        (11, [false, false, true, true, true, true]),
        (15, [false, false, true, true, true, true]),
        (16, [false, true, true, true, true, true]),
        (17, [false, false, true, true, true, true]),
        (64, [false, false, true, true, true, true]),
        (65, [false, false, true, true, true, false]),
        (128, [false, false, true, true, true, false]),
        (129, [false, false, false, false, false, false]),
    ] {
        let octets = letters.get(..count).ok_or("more letters than there are")?;
        assert_eq!(rt; accepted(octets), want, "at {count} octets");
    }
    Ok(())
}

#[test]
fn alphabets_at_their_edges(rt: HostRuntime) {
    for (octet, in_id, in_address) in [
        (0x00, false, false),
        (0x20, false, false),
        (0x21, false, true),
        (b'#', false, false),
        (b'$', false, true),
        (b'-', true, true),
        (b'.', true, true),
        (b'/', false, true),
        (b'0', true, true),
        (b'9', true, true),
        (b':', false, true),
        (b'@', false, true),
        (b'A', true, true),
        (b'Z', true, true),
        (b'[', false, true),
        (b'_', true, true),
        (b'`', false, true),
        (b'a', true, true),
        (b'z', true, true),
        (b'{', false, true),
        (0x7e, false, true),
        (0x7f, false, false),
        (0x80, false, false),
        (0xff, false, false),
    ] {
        assert_eq!(rt;
            EimId::of(&[b'e', octet]).is_ok(),
            in_id,
            "at octet {octet}"
        );
        assert_eq!(rt;
            Address::of(&[octet]).is_ok(),
            in_address,
            "at octet {octet}"
        );
    }
}

#[test]
fn nicknames_are_whole_characters(rt: HostRuntime) {
    for (octets, want) in [
        (b"\xc3\xa4".as_slice(), true),
        (b"a\xc3".as_slice(), false),
        (b"\xa4".as_slice(), false),
        (b"\xe2\x82\xac".as_slice(), true),
        (b"\xe2\x82".as_slice(), false),
        (b"\xf0\x9f\x98\x80".as_slice(), true),
        (b"\xf0\x9f\x98".as_slice(), false),
        (b"\xc0\x80".as_slice(), false),
        (b"\xed\xa0\x80".as_slice(), false),
        (b"\xf4\x8f\xbf\xbf".as_slice(), true),
        (b"\xf4\x90\x80\x80".as_slice(), false),
    ] {
        assert_eq!(rt; Nickname::of(octets).is_ok(), want, "at {octets:?}");
    }
}

fn compare_iccids(a: &Iccid, b: &Iccid) -> (bool, Ordering)
    ensures equal { IsTrue result.0 ↔ (a.now ≡ b.now) }
    ensures order { result.1 ≡ slice_cmp nat_cmp a.now b.now }
{
    (a == b, a.cmp(b))
}

fn compare_eids(a: &Eid, b: &Eid) -> (bool, Ordering)
    ensures equal { IsTrue result.0 ↔ (a.now ≡ b.now) }
    ensures order { result.1 ≡ slice_cmp nat_cmp a.now b.now }
{
    (a == b, a.cmp(b))
}

fn compare_eim_ids(a: &EimId, b: &EimId) -> (bool, Ordering)
    ensures equal { IsTrue result.0 ↔ (a.now ≡ b.now) }
    ensures order { result.1 ≡ slice_cmp nat_cmp a.now b.now }
{
    (a == b, a.cmp(b))
}

fn compare_addresses(a: &Address, b: &Address) -> (bool, Ordering)
    ensures equal { IsTrue result.0 ↔ (a.now ≡ b.now) }
    ensures order { result.1 ≡ slice_cmp nat_cmp a.now b.now }
{
    (a == b, a.cmp(b))
}

fn compare_keys(a: &Key, b: &Key) -> (bool, Ordering)
    ensures equal { IsTrue result.0 ↔ (a.now ≡ b.now) }
    ensures order { result.1 ≡ slice_cmp nat_cmp a.now b.now }
{
    (a == b, a.cmp(b))
}

fn compare_nicknames(a: &Nickname, b: &Nickname) -> (bool, Ordering)
    ensures equal { IsTrue result.0 ↔ (a.now ≡ b.now) }
    ensures order { result.1 ≡ slice_cmp nat_cmp a.now b.now }
{
    (a == b, a.cmp(b))
}

#[test]
fn order_is_that_of_octets(rt: HostRuntime) -> Result<(), Fail> {
    for (a, b, want) in [
        (b"a".as_slice(), b"a".as_slice(), Ordering::Equal),
        (b"a".as_slice(), b"aa".as_slice(), Ordering::Less),
        (b"aa".as_slice(), b"b".as_slice(), Ordering::Less),
        (b"b".as_slice(), b"aa".as_slice(), Ordering::Greater),
        (b"A".as_slice(), b"a".as_slice(), Ordering::Less),
        (b"a.".as_slice(), b"a-".as_slice(), Ordering::Greater),
    ] {
        let expected = (want == Ordering::Equal, want);
        assert_eq!(rt;
            compare_eim_ids(&EimId::of(a)?, &EimId::of(b)?),
            expected,
            "at {a:?} and {b:?}"
        );
        assert_eq!(rt;
            compare_addresses(&Address::of(a)?, &Address::of(b)?),
            expected,
            "at {a:?} and {b:?}"
        );
        assert_eq!(rt;
            compare_keys(&Key::of(a)?, &Key::of(b)?),
            expected,
            "at {a:?} and {b:?}"
        );
        assert_eq!(rt;
            compare_nicknames(&Nickname::of(a)?, &Nickname::of(b)?),
            expected,
            "at {a:?} and {b:?}"
        );
    }
    Ok(())
}

#[test]
fn padding_is_no_part_of_a_value(rt: HostRuntime) -> Result<(), Fail> {
    let (empty, zero) = (Key::of(b"")?, Key::of(b"\x00")?);
    assert_eq!(rt; compare_keys(&empty, &zero), (false, Ordering::Less));
    Ok(())
}

#[test]
fn fixed_values_compare_by_octets(rt: HostRuntime) -> Result<(), Fail> {
    let later = [0x98, 0x44, 0, 0, 0, 0, 0, 0, 0, 2];
    let (a, b) = (Iccid::of(&ICCID)?, Iccid::of(&later)?);
    assert_eq!(rt; compare_iccids(&a, &b), (false, Ordering::Less));
    assert_eq!(rt; compare_iccids(&b, &b), (true, Ordering::Equal));
    let first = [1, 0, 0, 0, 0, 0, 0, 0, 0, 0, 0, 0, 0, 0, 0, 0];
    assert_eq!(rt;
        compare_eids(&Eid::of(&first)?, &Eid::of(&EID)?),
        (false, Ordering::Greater)
    );
    Ok(())
}

// What generic code does with two values.
fn greater<T: Ord + Copy>(a: T, b: T) -> T {
    if a < b { b } else { a }
}

#[test]
fn generic_code_compares_values(rt: HostRuntime) -> Result<(), Fail> {
    let (a, b) = (EimId::of(b"aa")?, EimId::of(b"b")?);
    assert_eq!(rt; greater(a, b), b);
    let (a, b) = (Iccid::of(&ICCID)?, Iccid::of(&[0x99; 10])?);
    assert_eq!(rt; greater(b, a), b);
    Ok(())
}
