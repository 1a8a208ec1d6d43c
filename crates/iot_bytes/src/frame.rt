//! Frames: four octets of length, big-endian, and so many octets.

ghost use Rattle.std.specs.Prelude.{◌≡◌, ℕ, ◌+◌, ◌^◌, ◌<◌, ◌≤◌, List, [], ◌++◌, length, take, drop};
ghost use Rattle.std.specs.Prelude.{Option, Some, None, OnOk, OnErr, slice_index};
ghost use Rattle.std.specs.List.{All, flat_map};
ghost use Rattle.iot_bytes.specs.Causes.{Rose};
ghost use Rattle.iot_bytes.specs.Frames.{frame, blank_head, FrameGives, IsFrameDecided};
ghost use Rattle.iot_bytes.specs.Fill.{Fills};

use crate::memory::NoMemory;
use crate::row::Row;
use crate::source::Source;
use std::alloc::Global;

/// The greatest length of a frame's content that is read, in octets.
pub const FRAME_LIMIT: u32 = 262_144;

/// How many octets of length stand before a frame's content.
pub const FRAME_HEAD_LEN: usize = 4;

/// How reading a frame ended.
#[derive(Debug, Drop)]
pub enum FrameEnd {
    /// A whole frame: its content, without the octets of its length.
    Frame(Row<u8>),
    /// The source ended before the first octet.
    End,
    /// The source ended later, inside the frame.
    Torn,
    /// The announced length, which is above [`FRAME_LIMIT`]. Its content isn't read.
    TooLong(u64),
    /// The source failed. Octets of this frame may have been taken, but not all of them.
    ReadFault,
    /// Memory ran out. Octets of the length may have been taken, and none from behind them.
    NoMemory,
}

#[derive(Clone, Copy)]
enum FillEnd {
    Full,
    Ended(usize),
    Fault,
}

// Fills all of `out`, unless the source ends or fails before.
fn fill<S: Source>(source: &mut S, out: &mut [u8]) -> FillEnd
    ensures octets { (bytes : List ℕ) → S.rest source.old ≡ Some bytes
        → Fills bytes out.new (S.rest source.new) result }
    ensures untold { S.rest source.old ≡ None → S.rest source.new ≡ None }
    ensures monotone { S.faults source.old ≤ S.faults source.new }
    ensures fault { result ≡ FillEnd.Fault → Rose (S.faults source.old) (S.faults source.new) }
    ensures range { (i : ℕ) → slice_index out.new i < 256 }
{
    let mut at = 0;
    while at < out.len() {
        match source.read(&mut out[at..]) {
            Ok(0) => return FillEnd::Ended(at),
            Ok(n) => at += n,
            Err(_) => return FillEnd::Fault,
        }
    }
    FillEnd::Full
}

/// Reads the next frame.
///
/// A source may give its octets in any pieces. None is taken from behind the frame.
pub fn read_frame<S: Source>(alloc: Global, source: &mut S) -> FrameEnd
    ensures octets { (bytes : List ℕ) → S.rest source.old ≡ Some bytes
        → FrameGives bytes result (S.rest source.new) }
    ensures untold { S.rest source.old ≡ None → S.rest source.new ≡ None }
    ensures monotone { S.faults source.old ≤ S.faults source.new }
    ensures fault { result ≡ FrameEnd.ReadFault → Rose (S.faults source.old) (S.faults source.new) }
{
    let mut head = [0; FRAME_HEAD_LEN];
    match fill(source, &mut head) {
        FillEnd::Full => {}
        FillEnd::Ended(0) => return FrameEnd::End,
        FillEnd::Ended(_) => return FrameEnd::Torn,
        FillEnd::Fault => return FrameEnd::ReadFault,
    }
    let len = u32::from_be_bytes(head);
    if len > FRAME_LIMIT {
        return FrameEnd::TooLong(u64::from(len));
    }
    let Ok(mut octets) = vec![in alloc; 0; len as usize] else {
        return FrameEnd::NoMemory;
    };
    match fill(source, &mut octets) {
        FillEnd::Full => FrameEnd::Frame(Row::from_vec(octets)),
        FillEnd::Ended(_) => FrameEnd::Torn,
        FillEnd::Fault => FrameEnd::ReadFault,
    }
}

/// Begins a frame in an empty row: the octets of its length, which [`end_frame`] puts in place.
///
/// The content is appended behind them.
pub fn begin_frame(out: &mut Row<u8>) -> Result<(), NoMemory>
    requires { out.old ≡ [] }
    ensures ok { OnOk result (out.new ≡ blank_head) }
    ensures err { OnErr result (out.new ≡ []) }
{
    out.append(&[0; FRAME_HEAD_LEN])
}

/// Ends a frame that [`begin_frame`] began: its content is what was appended since. It takes no
/// memory.
///
/// [`FRAME_LIMIT`] is a limit on reading alone.
pub fn end_frame(out: &mut Row<u8>)
    requires begun { FRAME_HEAD_LEN ≤ length out.old }
    requires len { length out.old < FRAME_HEAD_LEN + 2 ^ 32 }
    ensures { out.new ≡ frame (drop FRAME_HEAD_LEN out.old) }
{
    let len = (out.len() - FRAME_HEAD_LEN) as u32;
    out.overwrite(&len.to_be_bytes());
}

/// The law that the octets decide how a frame ends.
///
/// Two ends that both stand over the same octets, neither a fault of the source nor want of memory,
/// are the same end and leave the same rest. So each of them comes exactly where its rule holds.
pub fn frame_end_is_one()
    ensures { (bytes : List ℕ) (a b : FrameEnd) (left other : Option (List ℕ)) → IsFrameDecided a
        → IsFrameDecided b → FrameGives bytes a left → FrameGives bytes b other
        → (a ≡ b) × (left ≡ other) }
{}

/// The law that a frame ends in one place: octets begin with one frame at most.
pub fn frames_split()
    ensures { (a b x y : List ℕ) → length a ≤ FRAME_LIMIT → length b ≤ FRAME_LIMIT
        → frame a ++ x ≡ frame b ++ y → (a ≡ b) × (x ≡ y) }
{}

/// The law that octets are the frames of one list at most.
pub fn frames_are_one()
    ensures { (fs gs : List (List ℕ)) → All (λ f. length f ≤ FRAME_LIMIT) fs
        → All (λ g. length g ≤ FRAME_LIMIT) gs → flat_map frame fs ≡ flat_map frame gs → fs ≡ gs }
{}
