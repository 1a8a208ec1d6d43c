//! Appending parts of a text. Where memory runs out, a front of the part may be left behind what
//! was there before.

ghost use Rattle.std.specs.Prelude.{◌≡◌, ◌++◌, length, take, OnOk, OnErr};
ghost use Rattle.std.specs.Fmt.{decimal};
ghost use Rattle.trace_text.specs.Texts.{mark_text};

use iot_bytes::{NoMemory, Row, put_decimal};

/// Appends a label and a text behind it.
///
/// # Errors
/// Where memory is wanting; a front of the two may then be left behind what was there before.
#[tactic(auto, using(iot_bytes::proofs::Appending::appended))]
pub fn put_text(out: &mut Row<u8>, label: &[u8], text: &[u8]) -> Result<(), NoMemory>
    ensures ok { OnOk result (out.new ≡ out.old ++ (label.now ++ text.now)) }
    ensures err { OnErr result (take (length out.old) out.new ≡ out.old) }
{
    out.append(label)?;
    out.append(text)
}

/// Appends a label and a number behind it.
///
/// # Errors
/// Where memory is wanting; a front of the two may then be left behind what was there before.
#[tactic(auto, using(iot_bytes::proofs::Appending::appended))]
pub fn put_number(out: &mut Row<u8>, label: &[u8], n: u64) -> Result<(), NoMemory>
    ensures ok { OnOk result (out.new ≡ out.old ++ (label.now ++ decimal n)) }
    ensures err { OnErr result (take (length out.old) out.new ≡ out.old) }
{
    out.append(label)?;
    put_decimal(out, n)
}

/// Appends the mark of a result that was rolled back.
pub(crate) fn put_mark(out: &mut Row<u8>, rolled: bool) -> Result<(), NoMemory>
    ensures ok { OnOk result (out.new ≡ out.old ++ mark_text rolled) }
    ensures err { OnErr result (take (length out.old) out.new ≡ out.old) }
{
    if rolled { out.append(b"r") } else { Ok(()) }
}
