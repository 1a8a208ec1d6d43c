ghost use Rattle.std.specs.Prelude.{◌≡◌, ◌≤◌, ◌+◌, ◌*◌, ◌++◌, ℕ, List, length, take, OnOk, OnErr};
ghost use Rattle.std.specs.List.{flat_map};
ghost use Rattle.sgp_der.specs.Element.{element, IsTag};
ghost use Rattle.small_card.specs.Lists.{Every};
ghost use Rattle.sgp_fields.specs.Fields.{mark, optional};
ghost use Rattle.sgp_fields.specs.Values.{flag_content};

use crate::values::Octets;
use iot_bytes::{NoMemory, Row};
use sgp_der::{MOST_CONTENT, put_octets, put_uint};

/// Appends the element of this tag whose content is the flag, or nothing where memory runs out.
#[tactic(auto, unfolding(crate::specs::Values::flag_content))]
pub fn put_flag(out: &mut Row<u8>, tag: u8, flag: bool) -> Result<(), NoMemory>
    requires { IsTag tag }
    ensures ok { OnOk result (out.new ≡ out.old ++ element tag (flag_content flag)) }
    ensures len { length out.new ≤ length out.old + 11 }
    ensures err { OnErr result (out.new ≡ out.old) }
{
    put_uint(out, tag, if flag { 1 } else { 0 })
}

/// Appends a mark, an empty element, where it is set, or nothing where memory runs out.
pub fn put_mark(out: &mut Row<u8>, tag: u8, set: bool) -> Result<(), NoMemory>
    requires { IsTag tag }
    ensures ok { OnOk result (out.new ≡ out.old ++ mark tag set) }
    ensures err { OnErr result (out.new ≡ out.old) }
{
    if set {
        put_octets(out, tag, &[])
    } else {
        Ok(())
    }
}

/// Appends the field of a value that may be left out, or nothing where memory runs out.
pub fn put_optional<T: Octets>(out: &mut Row<u8>, tag: u8, x: &Option<T>) -> Result<(), NoMemory>
    requires { IsTag tag }
    ensures ok { OnOk result (out.new ≡ out.old ++ optional T.octets_of tag x.now) }
    ensures err { OnErr result (out.new ≡ out.old) }
{
    match x {
        Some(x) => put_octets(out, tag, x.as_octets()),
        None => Ok(()),
    }
}

/// How a value is written, beside how [`Listed`](crate::Listed) reads it.
pub trait Written<T> {
    /// The value's one spelling.
    ghost spelled: { T → List ℕ };

    /// The values that are written.
    ghost Fits: { T → Type 0 };

    /// The most octets of a spelling.
    ghost most: { ℕ };

    /// How many octets the spelling has. It takes no memory.
    fn len(x: &T) -> usize
        requires { Fits x.now }
        ensures len { result ≡ length (spelled x.now) }
        ensures few { result ≤ most };

    /// Appends the spelling, or a part of it where memory runs out.
    fn put(out: &mut Row<u8>, x: &T) -> Result<(), NoMemory>
        requires { Fits x.now }
        ensures ok { OnOk result (out.new ≡ out.old ++ spelled x.now) }
        ensures err { OnErr result (take (length out.old) out.new ≡ out.old) };
}

/// Appends the spelling, or nothing where memory runs out.
pub fn write<T, W: Written<T>>(out: &mut Row<u8>, x: &T) -> Result<(), NoMemory>
    requires { W.Fits x.now }
    ensures ok { OnOk result (out.new ≡ out.old ++ W.spelled x.now) }
    ensures err { OnErr result (out.new ≡ out.old) }
{
    let before = out.len();
    if W::put(out, x).is_err() {
        out.cut(before);
        return Err(NoMemory);
    }
    Ok(())
}

/// How many octets a list has whose entries stand one behind the other.
pub fn list_len<T, W: Written<T>>(rows: &[T]) -> usize
    requires each { Every W.Fits rows.now }
    requires few { length rows.now * W.most ≤ MOST_CONTENT }
    ensures len { result ≡ length (flat_map W.spelled rows.now) }
    ensures few { result ≤ length rows.now * W.most }
{
    let mut len = 0;
    for row in rows {
        len += W::len(row);
    }
    len
}

/// Appends the entries of a list, one behind the other, or a part of them where memory runs out.
pub fn put_list<T, W: Written<T>>(out: &mut Row<u8>, rows: &[T]) -> Result<(), NoMemory>
    requires { Every W.Fits rows.now }
    ensures ok { OnOk result (out.new ≡ out.old ++ flat_map W.spelled rows.now) }
    ensures err { OnErr result (take (length out.old) out.new ≡ out.old) }
{
    for row in rows {
        W::put(out, row)?;
    }
    Ok(())
}

/// Appends the entries of a list, one behind the other, or nothing where memory runs out.
pub fn write_list<T, W: Written<T>>(out: &mut Row<u8>, rows: &[T]) -> Result<(), NoMemory>
    requires { Every W.Fits rows.now }
    ensures ok { OnOk result (out.new ≡ out.old ++ flat_map W.spelled rows.now) }
    ensures err { OnErr result (out.new ≡ out.old) }
{
    let before = out.len();
    if put_list::<T, W>(out, rows).is_err() {
        out.cut(before);
        return Err(NoMemory);
    }
    Ok(())
}
