ghost use Rattle.std.specs.Prelude.{IfOk};
ghost use Rattle.iot_schedule.specs.Ranges.{IsDevice};
ghost use Rattle.sgp_der.specs.Fields.{Gives};
ghost use Rattle.iot_schedule.specs.Devices.{device_of, device_line, device_at};

use crate::types::Device;
use crate::words::{Words, is, keyword};
use iot_bytes::ReadError;
use small_card::are_all_apart;
use small_card::limits::MOST_PROFILES;
use std::alloc::Global;

#[tactic(auto, unfolding(crate::specs::Devices::device_of))]
fn device(alloc: Global, words: &mut Words) -> Result<Device, ReadError>
    ensures { Gives result (device_of words.old) }
{
    let eid = words.next(alloc)?;
    let profiles = words.list(alloc, MOST_PROFILES)?;
    if !are_all_apart(profiles.as_slice()) {
        return Err(ReadError::Malformed);
    }
    Ok(Device { eid, profiles })
}

#[tactic(auto, unfolding(crate::specs::Devices::device_line, crate::specs::Devices::device_at))]
fn first_line(alloc: Global, text: &[u8]) -> Result<Device, ReadError>
    ensures { Gives result (device_at text.now) }
{
    let (name, mut words) = keyword(text);
    if !is(name, b"device") {
        return Err(ReadError::Malformed);
    }
    device(alloc, &mut words)
}

/// The device that a first line of a schedule, without its end, spells.
///
/// # Errors
/// `Malformed` exactly where the text spells no device.
#[tactic(auto, using(crate::proofs::FittingLines::device_given))]
pub fn read_device(alloc: Global, text: &[u8]) -> Result<Device, ReadError>
    ensures exact { Gives result (device_at text.now) }
    ensures range { IfOk result (λ device. IsDevice device) }
{
    first_line(alloc, text)
}
