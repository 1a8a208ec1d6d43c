ghost use Rattle.std.specs.Prelude.{◌≡◌, ◌++◌, length, take, OnOk, OnErr};
ghost use Rattle.std.specs.List.{flat_map};
ghost use Rattle.trace_text.specs.Texts.{record_entry, kept_text};

use crate::parts::{put_mark, put_number};
use iot_bytes::{NoMemory, Row};
use small_card::PackageResult;

#[tactic(auto, using(iot_bytes::proofs::Appending::appended), unfolding(crate::specs::Texts::record_entry))]
fn put_record(out: &mut Row<u8>, record: &PackageResult) -> Result<(), NoMemory>
    ensures ok { OnOk result (out.new ≡ out.old ++ record_entry «record».now) }
    ensures err { OnErr result (take (length out.old) out.new ≡ out.old) }
{
    put_number(out, b" ", u64::from(record.association))?;
    put_number(out, b"/", record.counter)?;
    put_number(out, b"/", u64::from(record.seq))?;
    put_mark(out, record.rolled)
}

fn put_records(out: &mut Row<u8>, records: &[PackageResult]) -> Result<(), NoMemory>
    ensures ok { OnOk result (out.new ≡ out.old ++ flat_map record_entry records.now) }
    ensures err { OnErr result (take (length out.old) out.new ≡ out.old) }
{
    for record in records {
        put_record(out, record)?;
    }
    Ok(())
}

#[tactic(auto, using(iot_bytes::proofs::Appending::appended), unfolding(crate::specs::Texts::kept_text))]
fn put_whole_kept(out: &mut Row<u8>, records: &[PackageResult]) -> Result<(), NoMemory>
    ensures ok { OnOk result (out.new ≡ out.old ++ kept_text records.now) }
    ensures err { OnErr result (take (length out.old) out.new ≡ out.old) }
{
    out.append(b"kept")?;
    put_records(out, records)
}

/// Appends the records of a manager, or nothing where memory ran out.
pub fn put_kept(out: &mut Row<u8>, records: &[PackageResult]) -> Result<(), NoMemory>
    ensures ok { OnOk result (out.new ≡ out.old ++ kept_text records.now) }
    ensures err { OnErr result (out.new ≡ out.old) }
{
    let before = out.len();
    if put_whole_kept(out, records).is_err() {
        out.cut(before);
        return Err(NoMemory);
    }
    Ok(())
}
