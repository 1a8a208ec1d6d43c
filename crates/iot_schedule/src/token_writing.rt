//! Writing one word of a line. Where memory runs out, a front of what is written may be left behind
//! what was there before.

ghost use Rattle.std.specs.Prelude.{◌≡◌, ◌++◌, length, take, codes, OnOk, OnErr};
ghost use Rattle.std.specs.Fmt.{decimal};
ghost use Rattle.iot_bytes.specs.Hexes.{hex};
ghost use Rattle.iot_schedule.specs.Words.{spaced};
ghost use Rattle.iot_schedule.specs.Spelling.{sign_text, profile_entry, pick_text, bytes_text};
ghost use Rattle.iot_schedule.specs.Spelling.{key_text, address_text, tear_text};

use crate::types::Pick;
use chip_port::Tear;
use iot_bytes::{NoMemory, Row, put_decimal, put_hex};
use sgp_values::{Address, Eid, Key};
use small_card::Profile;
use trace_text::put_text;

/// Appends a label and the digits of octets behind it.
#[tactic(auto, using(crate::proofs::Appending::appended))]
pub(crate) fn put_digits(out: &mut Row<u8>, label: &[u8], octets: &[u8]) -> Result<(), NoMemory>
    ensures ok { OnOk result (out.new ≡ out.old ++ (label.now ++ hex octets.now)) }
    ensures err { OnErr result (take (length out.old) out.new ≡ out.old) }
{
    out.append(label)?;
    put_hex(out, octets)
}

/// Appends a word behind a space.
#[tactic(auto, unfolding(crate::specs::Words::spaced))]
pub(crate) fn put_word(out: &mut Row<u8>, word: &[u8]) -> Result<(), NoMemory>
    ensures ok { OnOk result (out.new ≡ out.old ++ spaced word.now) }
    ensures err { OnErr result (take (length out.old) out.new ≡ out.old) }
{
    put_text(out, b" ", word)
}

/// Appends a number behind a space.
#[tactic(auto, using(crate::proofs::Appending::appended), unfolding(crate::specs::Words::spaced))]
pub(crate) fn put_number(out: &mut Row<u8>, n: u64) -> Result<(), NoMemory>
    ensures ok { OnOk result (out.new ≡ out.old ++ spaced (decimal n)) }
    ensures err { OnErr result (take (length out.old) out.new ≡ out.old) }
{
    out.append(b" ")?;
    put_decimal(out, n)
}

/// Appends an EID behind a space.
#[tactic(auto, unfolding(crate::specs::Words::spaced))]
pub(crate) fn put_eid(out: &mut Row<u8>, eid: &Eid) -> Result<(), NoMemory>
    ensures ok { OnOk result (out.new ≡ out.old ++ spaced (hex eid.now)) }
    ensures err { OnErr result (take (length out.old) out.new ≡ out.old) }
{
    put_digits(out, b" ", eid.octets())
}

/// Appends an address behind a space.
#[tactic(auto, unfolding(crate::specs::Words::spaced))]
pub(crate) fn put_address(out: &mut Row<u8>, address: &Address) -> Result<(), NoMemory>
    ensures ok { OnOk result (out.new ≡ out.old ++ spaced (address_text address.now)) }
    ensures err { OnErr result (take (length out.old) out.new ≡ out.old) }
{
    put_text(out, b" @", address.octets())
}

/// Appends a key behind a space.
#[tactic(auto, unfolding(crate::specs::Words::spaced))]
pub(crate) fn put_key(out: &mut Row<u8>, key: &Key) -> Result<(), NoMemory>
    ensures ok { OnOk result (out.new ≡ out.old ++ spaced (key_text key.now)) }
    ensures err { OnErr result (take (length out.old) out.new ≡ out.old) }
{
    put_digits(out, b" #", key.octets())
}

fn sign(enabled: bool) -> &'static [u8]
    ensures { result.now ≡ codes " " ++ sign_text enabled }
{
    if enabled { b" +" } else { b" -" }
}

/// Appends a profile behind a space.
#[tactic(auto, using(crate::proofs::Appending::appended), unfolding(crate::specs::Words::spaced, crate::specs::Spelling::profile_text, crate::specs::Spelling::profile_entry))]
pub(crate) fn put_profile(out: &mut Row<u8>, profile: &Profile) -> Result<(), NoMemory>
    ensures ok { OnOk result (out.new ≡ out.old ++ profile_entry profile.now) }
    ensures err { OnErr result (take (length out.old) out.new ≡ out.old) }
{
    put_digits(out, sign(profile.enabled), profile.iccid.octets())?;
    put_digits(out, b"%", profile.nickname.octets())
}

/// Appends which message of a list is meant, behind a space.
pub(crate) fn put_pick(out: &mut Row<u8>, pick: &Pick) -> Result<(), NoMemory>
    ensures ok { OnOk result (out.new ≡ out.old ++ spaced (pick_text pick.now)) }
    ensures err { OnErr result (take (length out.old) out.new ≡ out.old) }
{
    match pick {
        Pick::At(n) => put_number(out, u64::from(*n)),
        Pick::Last => put_word(out, b"last"),
    }
}

/// Appends the octets of a package behind a space.
#[tactic(auto, unfolding(crate::specs::Words::spaced))]
pub(crate) fn put_bytes(out: &mut Row<u8>, bytes: &[u8]) -> Result<(), NoMemory>
    ensures ok { OnOk result (out.new ≡ out.old ++ spaced (bytes_text bytes.now)) }
    ensures err { OnErr result (take (length out.old) out.new ≡ out.old) }
{
    match bytes {
        [] => out.append(b" -"),
        _ => put_digits(out, b" ", bytes),
    }
}

/// Appends what a planned cut leaves, behind a space.
pub(crate) fn put_tear(out: &mut Row<u8>, tear: Tear) -> Result<(), NoMemory>
    ensures ok { OnOk result (out.new ≡ out.old ++ spaced (tear_text tear)) }
    ensures err { OnErr result (take (length out.old) out.new ≡ out.old) }
{
    match tear {
        Tear::Old => put_word(out, b"old"),
        Tear::New => put_word(out, b"new"),
        Tear::Half => put_word(out, b"half"),
        Tear::Junk => put_word(out, b"junk"),
    }
}
