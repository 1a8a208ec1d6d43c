//! Lists of results, in rising numbers.

ghost use Rattle.std.specs.Prelude.{◌≡◌, ◌≤◌, ◌+◌, ◌*◌, ◌++◌, take, length, OnOk, OnErr};
ghost use Rattle.sgp_der.specs.Fields.{Gives};
ghost use Rattle.small_card.specs.Lists.{Every};
ghost use Rattle.small_card.specs.Ranges.{IsResult};
ghost use Rattle.es10_codec.specs.Reading.{results_at};
ghost use Rattle.es10_codec.specs.Spelling.{results};

use crate::tags::RESULT;
use iot_bytes::{NoMemory, ReadError, Row};
use result_codec::{read_result_content, result_len, write_result};
use sgp_fields::{Listed, Written, list, list_len, put_list};
use small_card::limits::MOST_PENDING;
use small_card::{PackageResult, are_all_apart};
use std::alloc::Global;

/// A result as one element.
struct Entry;

impl Listed<PackageResult> for Entry {
    ghost use Rattle.sgp_fields.specs.Elements.{tagged_as};
    ghost use Rattle.result_codec.specs.Reading.{result_of};

    ghost entry_of = { tagged_as 0x30 result_of };

    fn read(alloc: Global, tag: u8, content: &[u8]) -> Result<PackageResult, ReadError> {
        match tag {
            RESULT => read_result_content(alloc, content),
            _ => Err(ReadError::Malformed),
        }
    }
}

impl Written<PackageResult> for Entry {
    ghost use Rattle.result_codec.specs.Spelling.{result as one};

    ghost spelled = { one };

    ghost Fits = { IsResult };

    ghost most = { 18309 };

    fn len(r: &PackageResult) -> usize {
        result_len(r)
    }

    fn put(out: &mut Row<u8>, r: &PackageResult) -> Result<(), NoMemory> {
        write_result(r, out)
    }
}

/// The results that the octets spell, one element behind the other: at most 8, in rising numbers.
#[tactic(auto, unfolding(crate::specs::Reading::results_at))]
pub(crate) fn read_results(alloc: Global, content: &[u8]) -> Result<Row<PackageResult>, ReadError>
    ensures { Gives result (results_at content.now) }
{
    let rows = list::<PackageResult, Entry>(alloc, content, MOST_PENDING)?;
    if are_all_apart(rows.as_slice()) {
        Ok(rows)
    } else {
        Err(ReadError::Malformed)
    }
}

/// How many octets the results have.
pub(crate) fn results_len(rows: &[PackageResult]) -> usize
    requires few { length rows.now ≤ 8 }
    requires each { Every IsResult rows.now }
    ensures len { result ≡ length (results rows.now) }
    ensures few { result ≤ 146472 }
{
    list_len::<PackageResult, Entry>(rows)
}

/// Appends the results, or a part of them where memory runs out.
pub(crate) fn put_results(out: &mut Row<u8>, rows: &[PackageResult]) -> Result<(), NoMemory>
    requires { Every IsResult rows.now }
    ensures ok { OnOk result (out.new ≡ out.old ++ results rows.now) }
    ensures err { OnErr result (take (length out.old) out.new ≡ out.old) }
{
    put_list::<PackageResult, Entry>(out, rows)
}
