//! The record that ends the answers of a run which stopped.

ghost use Rattle.std.specs.Prelude.{◌≡◌, ◌≤◌, ◌++◌, take, length, OnOk, OnErr};
ghost use Rattle.es10_codec.specs.Spelling.{stop_content, stopped};

use crate::tags::stop::{NUMBER, STATUS, STOPPED};
use iot_bytes::{NoMemory, Row};
use sgp_der::{put_head, put_uint};
use sgp_fields::{Written, element_len, number_len, write};

/// Why a run stopped, and where.
#[derive(Clone, Copy)]
struct Stop {
    status: u8,
    number: u64,
}

#[tactic(auto, unfolding(crate::specs::Spelling::stop_content), using(sgp_fields::proofs::Appending::length_both))]
fn content_len(stop: &Stop) -> usize
    ensures len { result ≡ length (stop_content stop.now.status stop.now.number) }
    ensures few { result ≤ 28 }
{
    number_len(u64::from(stop.status)) + number_len(stop.number)
}

/// A stop record as one element.
struct Record;

impl Written<Stop> for Record {
    ghost spelled = { λ s. stopped s.status s.number };

    ghost Fits = { λ s. Unit {0} };

    ghost most = { 33 };

    #[tactic(auto, unfolding(crate::specs::Spelling::stopped))]
    fn len(stop: &Stop) -> usize {
        element_len(content_len(stop))
    }

    #[tactic(auto, unfolding(crate::specs::Spelling::stopped, crate::specs::Spelling::stop_content), using(sgp_fields::proofs::Appending::appended))]
    fn put(out: &mut Row<u8>, stop: &Stop) -> Result<(), NoMemory> {
        put_head(out, STOPPED, content_len(stop))?;
        put_uint(out, STATUS, u64::from(stop.status))?;
        put_uint(out, NUMBER, stop.number)
    }
}

/// Appends the record that ends the answers of a run that stopped: the exit status, and the number
/// of the frame that was being read or handled. Nothing is appended where memory runs out.
pub fn write_stopped(status: u8, number: u64, out: &mut Row<u8>) -> Result<(), NoMemory>
    ensures ok { OnOk result (out.new ≡ out.old ++ stopped status number) }
    ensures err { OnErr result (out.new ≡ out.old) }
{
    write::<Stop, Record>(out, &Stop { status, number })
}
