//! Taking frames, within the limits on their length and count.

ghost use Rattle.std.specs.Prelude.{◌≡◌, ℕ, ◌≤◌, Err};
ghost use Rattle.iot_bytes.specs.Causes.{Rose};
ghost use Rattle.run_loop.specs.Frames.{NextFrame, NoFurther};

use crate::halt::ReadStop;
use iot_bytes::{FrameEnd, Row, Source, read_frame};
use std::alloc::Global;

/// The most frames of a run.
pub const MOST_FRAMES: u32 = 100_000;

/// Reads the next frame, or says why there is none.
pub fn next_frame<S: Source>(alloc: Global, source: &mut S) -> Result<Row<u8>, ReadStop>
    ensures next { (count : ℕ) → NextFrame count (S.rest source.old) (S.rest source.new) result }
    ensures fault { result ≡ Err ReadStop.Fault → Rose (S.faults source.old) (S.faults source.new) }
    ensures monotone { S.faults source.old ≤ S.faults source.new }
{
    match read_frame(alloc, source) {
        FrameEnd::Frame(frame) => Ok(frame),
        FrameEnd::End => Err(ReadStop::End),
        FrameEnd::Torn => Err(ReadStop::Torn),
        FrameEnd::TooLong(_) => Err(ReadStop::Limit),
        FrameEnd::ReadFault => Err(ReadStop::Fault),
        FrameEnd::NoMemory => Err(ReadStop::NoMemory),
    }
}

/// The end of the input is due behind the most frames: one more passes the limit.
pub fn no_further<S: Source>(alloc: Global, source: &mut S) -> ReadStop
    ensures none { NoFurther (S.rest source.old) (S.rest source.new) result }
    ensures fault { result ≡ ReadStop.Fault → Rose (S.faults source.old) (S.faults source.new) }
    ensures monotone { S.faults source.old ≤ S.faults source.new }
{
    match next_frame(alloc, source) {
        Ok(_) => ReadStop::Limit,
        Err(stop) => stop,
    }
}
