//! What checks the lines of a schedule.

ghost use Rattle.std.specs.Prelude.{◌≡◌, ◌≢◌, ◌++◌, OnOk};
ghost use Rattle.schedule_forms.specs.Checks.{Fits, ok_line};
ghost use Rattle.iot_schedule.specs.Devices.{device_at};
ghost use Rattle.iot_schedule.specs.Steps.{step_at};

use iot_bytes::{NoMemory, Row, put_decimal};
use iot_schedule::{read_device, read_step};
use line_loop::{EndStop, LinePart, LineStop};
use std::alloc::Global;

/// What checks the lines of a schedule. It keeps their number alone.
#[derive(Debug, Drop)]
pub(crate) struct CheckPart {
    count: u64,
}

impl CheckPart {
    /// The part that no line came to yet.
    pub fn new() -> CheckPart
        ensures { result.count ≡ 0 }
    {
        CheckPart { count: 0 }
    }
}

// Whether a text spells a device.
fn check_device(alloc: Global, text: &[u8]) -> Result<(), LineStop>
    ensures { Fits (device_at text.now) result }
{
    read_device(alloc, text)?;
    Ok(())
}

// Whether a text spells a line behind the first one.
fn check_step(alloc: Global, text: &[u8]) -> Result<(), LineStop>
    ensures { Fits (step_at text.now) result }
{
    read_step(alloc, text)?;
    Ok(())
}

// Whether a text is the line that is due behind so many.
fn check_line(alloc: Global, count: u64, text: &[u8]) -> Result<(), LineStop>
    ensures first { count ≡ 0 → Fits (device_at text.now) result }
    ensures later { count ≢ 0 → Fits (step_at text.now) result }
{
    if count == 0 {
        check_device(alloc, text)
    } else {
        check_step(alloc, text)
    }
}

// The closing text for so many lines.
#[tactic(auto, unfolding(crate::specs::Checks::ok_line))]
fn put_ok(out: &mut Row<u8>, count: u64) -> Result<(), NoMemory>
    ensures { OnOk result (out.new ≡ out.old ++ ok_line count) }
{
    out.append(b"ok ")?;
    put_decimal(out, count)?;
    out.append(b"\n")
}

impl LinePart<(), ()> for CheckPart {
    ghost use Rattle.schedule_forms.specs.Checks.{Counted, StopsCheck, EndsWith, counted};
    ghost use Rattle.schedule_forms.specs.Starting.{counted_nothing};

    ghost behind = { λ first now ls text. Counted first.part.count now.part.count ls text };

    ghost stops = { λ first now ls text l stop. first.part.count ≡ 0 → StopsCheck ls text l stop };

    ghost ends = { λ first now ls text end. first.part.count ≡ 0 → EndsWith (counted ls) ls end };

    fn handle(
        &mut self,
        alloc: Global,
        line: &[u8],
        _bench: &mut (),
        _modems: &mut (),
        _out: &mut Row<u8>,
    ) -> Result<(), LineStop> {
        check_line(alloc, self.count, line)?;
        self.count = self.count.saturating_add(1);
        Ok(())
    }

    fn finish(&self, _alloc: Global, out: &mut Row<u8>) -> Result<(), EndStop> {
        if self.count == 0 {
            return Err(EndStop::Missing);
        }
        match put_ok(out, self.count) {
            Ok(()) => Ok(()),
            Err(NoMemory) => Err(EndStop::NoMemory),
        }
    }

    ghost begins = { λ first. counted_nothing first.part.count };
}
