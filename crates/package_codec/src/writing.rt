ghost use Rattle.std.specs.Prelude.{◌≡◌, ◌≤◌, ◌++◌, length, take, OnOk, OnErr};
ghost use Rattle.small_card.specs.Ranges.{IsPackage, IsSigned};
ghost use Rattle.package_codec.specs.Spelling.{package_fields, inner_package};
ghost use Rattle.package_codec.specs.Spelling.{signed_content, signed};

use crate::body_writing::{body_len, put_body};
use crate::tags::{inner, outer};
use iot_bytes::{NoMemory, Row};
use sgp_der::{put_head, put_octets, put_uint};
use sgp_fields::{Written, element_len, field_len, number_len, write};
use small_card::{Package, Signed};

#[tactic(auto, unfolding(crate::specs::Spelling::package_fields), using(sgp_fields::proofs::Appending::length_both))]
fn package_len(value: &Package) -> usize
    requires { IsPackage value.now }
    ensures len { result ≡ length (package_fields value.now) }
    ensures few { result ≤ 3419 }
{
    field_len(value.eim.octets())
        + field_len(value.eid.octets())
        + number_len(u64::from(value.association))
        + number_len(value.counter)
        + body_len(&value.body)
}

#[tactic(auto, unfolding(crate::specs::Spelling::package_fields), using(sgp_fields::proofs::Appending::appended))]
fn put_fields(out: &mut Row<u8>, value: &Package) -> Result<(), NoMemory>
    requires { IsPackage value.now }
    ensures ok { OnOk result (out.new ≡ out.old ++ package_fields value.now) }
    ensures err { OnErr result (take (length out.old) out.new ≡ out.old) }
{
    put_octets(out, inner::EIM_ID, value.eim.octets())?;
    put_octets(out, inner::EID, value.eid.octets())?;
    put_uint(out, inner::ASSOCIATION, u64::from(value.association))?;
    put_uint(out, inner::COUNTER, value.counter)?;
    put_body(out, &value.body)
}

#[tactic(auto, unfolding(crate::specs::Spelling::inner_package), using(sgp_fields::proofs::Appending::headed, sgp_fields::proofs::Appending::kept_before))]
fn put_package(out: &mut Row<u8>, value: &Package) -> Result<(), NoMemory>
    requires { IsPackage value.now }
    ensures ok { OnOk result (out.new ≡ out.old ++ inner_package value.now) }
    ensures err { OnErr result (take (length out.old) out.new ≡ out.old) }
{
    put_head(out, outer::PACKAGE, package_len(value))?;
    put_fields(out, value)
}

// The length of the package's element and of the signature's.
#[tactic(auto, unfolding(crate::specs::Spelling::inner_package, crate::specs::Spelling::signed_content), using(sgp_fields::proofs::Appending::length_both))]
fn content_len(value: &Signed) -> usize
    requires { IsSigned value.now }
    ensures len { result ≡ length (signed_content value.now) }
    ensures few { result ≤ 3600 }
{
    element_len(package_len(&value.package)) + field_len(value.signature.as_slice())
}

#[tactic(auto, unfolding(crate::specs::Spelling::signed_content), using(sgp_fields::proofs::Appending::appended))]
fn put_content(out: &mut Row<u8>, value: &Signed) -> Result<(), NoMemory>
    requires { IsSigned value.now }
    ensures ok { OnOk result (out.new ≡ out.old ++ signed_content value.now) }
    ensures err { OnErr result (take (length out.old) out.new ≡ out.old) }
{
    put_package(out, &value.package)?;
    put_octets(out, outer::SIGNATURE, value.signature.as_slice())
}

/// A package with its signature.
struct SignedPackage;

impl Written<Signed> for SignedPackage {
    ghost use Rattle.small_card.specs.Ranges.{IsSigned};
    ghost use Rattle.package_codec.specs.Spelling.{signed};

    ghost spelled = { signed };

    ghost Fits = { IsSigned };

    ghost most = { 3605 };

    #[tactic(auto, unfolding(crate::specs::Spelling::signed))]
    fn len(value: &Signed) -> usize {
        element_len(content_len(value))
    }

    #[tactic(auto, unfolding(crate::specs::Spelling::signed), using(sgp_fields::proofs::Appending::headed, sgp_fields::proofs::Appending::kept_before))]
    fn put(out: &mut Row<u8>, value: &Signed) -> Result<(), NoMemory> {
        put_head(out, outer::WHOLE, content_len(value))?;
        put_content(out, value)
    }
}

/// How many octets `write_signed` appends for this package.
pub fn signed_len(value: &Signed) -> usize
    requires { IsSigned value.now }
    ensures { result ≡ length (signed value.now) }
{
    SignedPackage::len(value)
}

/// Appends the one spelling of the package, or nothing where memory runs out.
pub fn write_signed(value: &Signed, out: &mut Row<u8>) -> Result<(), NoMemory>
    requires { IsSigned value.now }
    ensures ok { OnOk result (out.new ≡ out.old ++ signed value.now) }
    ensures err { OnErr result (out.new ≡ out.old) }
{
    write::<Signed, SignedPackage>(out, value)
}
