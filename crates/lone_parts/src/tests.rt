//! The worked frames of both parts, however they come and go.

use super::*;
use iot_bytes::{MemSink, MemSource, Row, read_hex};
use sgp_values::{Eid, EimId};
use std::alloc::Global;
use std::test::Fail;

const EID: [u8; 16] = [0, 1, 2, 3, 4, 5, 6, 7, 8, 9, 10, 11, 12, 13, 14, 15];

/// Which part answers.
#[derive(Clone, Copy)]
enum Form {
    Eim,
    Ipa,
}

/// A source gives so many octets a call and fails at the named calls; a sink takes so many in all,
/// and fails at the named calls.
#[derive(Clone, Copy)]
struct Edge<'a> {
    piece: usize,
    failing: &'a [u64],
    room: usize,
    refusing: &'a [u64],
}

const WHOLE: Edge<'static> = Edge {
    piece: 1 << 20,
    failing: &[],
    room: 1 << 21,
    refusing: &[],
};

// Bound to association 1 behind counter 0, an order to list the profiles, a poll.
const EIM_IN: [&str; 3] = [
    "a006800101810100",
    "a4028300",
    "a714a0128010 000102030405060708090a0b0c0d0e0f",
];

const EIM_OUT: [&str; 3] = [
    "8200",
    "800101",
    "a4288026 3024302080026531 8110000102030405060708090a0b0c0d0e0f 820101 830101 a4028300 8600",
];

// Three failed probes, the wish for results, the card's one result, nothing from the manager.
const IPA_IN: [&str; 6] = [
    "810100",
    "810100",
    "810100",
    "8300",
    "a418 a716 3014 800101 81026531 820101 830101 a405a003800100",
    "a00b 80026531 810101 a2028100",
];

const IPA_OUT: [&str; 6] = [
    "3000",
    "3000",
    "3004a0028200",
    "3004a0028400",
    "3020 a11e 80026531 a218 a116 3014 800101 81026531 820101 830101 a405a003800100",
    "3000",
];

/// Appends the octets of a text in hexadecimal; spaces are for its reader.
fn put(out: &mut Row<u8>, alloc: Global, text: &str) -> Result<(), Fail> {
    let mut digits = Row::new(alloc);
    for octet in text.as_bytes() {
        if *octet != b' ' {
            digits.append(&[*octet])?;
        }
    }
    let Ok(octets) = read_hex(alloc, digits.as_slice()) else {
        return Err("the text isn't hexadecimal".into());
    };
    out.append(octets.as_slice())?;
    Ok(())
}

/// Appends the frame of these octets.
fn put_frame(out: &mut Row<u8>, octets: &[u8]) -> Result<(), Fail> {
    let Ok(len) = u32::try_from(octets.len()) else {
        return Err("the content is too long".into());
    };
    out.append(&len.to_be_bytes())?;
    out.append(octets)?;
    Ok(())
}

/// Appends the frame of a content in hexadecimal.
fn put_text(out: &mut Row<u8>, alloc: Global, content: &str) -> Result<(), Fail> {
    let mut octets = Row::new(alloc);
    put(&mut octets, alloc, content)?;
    put_frame(out, octets.as_slice())
}

/// The frames of contents in hexadecimal.
fn frames(alloc: Global, contents: &[&str]) -> Result<Row<u8>, Fail> {
    let mut out = Row::new(alloc);
    for content in contents {
        put_text(&mut out, alloc, *content)?;
    }
    Ok(out)
}

/// Appends the frame of the stop record.
fn put_stopped(out: &mut Row<u8>, alloc: Global, status: u8, number: u8) -> Result<(), Fail> {
    put(out, alloc, "00000008 ad06 8001")?;
    out.append(&[status])?;
    put(out, alloc, "8101")?;
    out.append(&[number])?;
    Ok(())
}

fn run(form: Form, alloc: Global, source: &mut MemSource, sink: &mut MemSink) -> Result<u8, Fail> {
    let eid = Eid::of(&EID)?;
    match form {
        Form::Eim => Ok(run_eim(alloc, EimId::of(b"e1")?, eid, source, sink)),
        Form::Ipa => Ok(run_ipa(alloc, eid, source, sink)),
    }
}

/// Whether a run over an input ends with the status, and these octets are sent.
fn ends(
    form: Form,
    alloc: Global,
    input: &Row<u8>,
    edge: &Edge<'_>,
    status: u8,
    sent: &Row<u8>,
) -> Result<bool, Fail> {
    let mut failing = Row::new(alloc);
    failing.append(edge.failing)?;
    let mut refusing = Row::new(alloc);
    refusing.append(edge.refusing)?;
    let mut source = MemSource::new(input.copy(alloc)?, edge.piece.max(1), failing);
    let mut sink = MemSink::new(alloc, edge.room, edge.piece.max(1), refusing)?;
    let ended = run(form, alloc, &mut source, &mut sink)?;
    Ok(ended == status && sink.taken() == sent.as_slice())
}

/// Whether the frames, in pieces of 1, of 3 and of all octets, are answered so.
fn answers(form: Form, alloc: Global, input: &[&str], output: &[&str]) -> Result<bool, Fail> {
    let input = frames(alloc, input)?;
    let sent = frames(alloc, output)?;
    for piece in [1, 3, 1 << 20] {
        if !ends(form, alloc, &input, &Edge { piece, ..WHOLE }, 0, &sent)? {
            return Ok(false);
        }
    }
    Ok(true)
}

#[test]
fn worked_frames(rt: HostRuntime) -> Result<(), Fail> {
    let alloc = rt.alloc();
    assert!(rt; answers(Form::Eim, alloc, &EIM_IN, &EIM_OUT)?);
    assert!(rt; answers(Form::Ipa, alloc, &IPA_IN, &IPA_OUT)?);
    Ok(())
}

// Each refusal by its code: not bound, none waits, an order's counter is above, the last is spent.
const REFUSALS_IN: [&str; 9] = [
    "a4028300",
    "8600",
    "a006800101810105",
    "a4028300",
    "a006800101810105",
    "8600",
    "8600",
    "a00d 800101 81087fffffffffffffff",
    "a4028300",
];

const REFUSALS_OUT: [&str; 9] = [
    "a103800101",
    "a103800104",
    "8200",
    "800106",
    "a103800103",
    "830106",
    "a103800104",
    "8200",
    "a103800102",
];

// A restart, a poll, a package, the card's refusal twice, an acknowledgement, a passed probe.
const CARRIED_IN: [&str; 7] = [
    "8200",
    "85026531",
    "a031 80026531 810101 a228 8026 3024302080026531 8110000102030405060708090a0b0c0d0e0f \
        820101 830101 a4028300 8600",
    "a40b a209 800106 810101 820101",
    "a40b a209 800106 810101 820101",
    "a00e 80026531 810101 a205 a203800101",
    "810101",
];

const CARRIED_OUT: [&str; 7] = [
    "3000",
    "301c a11a 80026531 a214 a0128010 000102030405060708090a0b0c0d0e0f",
    "302f a02d a12b 800101 8126 3024302080026531 8110000102030405060708090a0b0c0d0e0f \
        820101 830101 a4028300 8600",
    "3013 a111 80026531 a20b a209 800106 810101 820101",
    "3000",
    "3007 a005 a303800101",
    "3000",
];

#[test]
fn other_frames(rt: HostRuntime) -> Result<(), Fail> {
    let alloc = rt.alloc();
    assert!(rt; answers(Form::Eim, alloc, &REFUSALS_IN, &REFUSALS_OUT)?);
    assert!(rt; answers(Form::Ipa, alloc, &CARRIED_IN, &CARRIED_OUT)?);
    Ok(())
}

/// The answers to the first frames, and the stop record with this status behind them.
fn stopped_behind(
    alloc: Global,
    output: &[&str],
    count: usize,
    status: u8,
) -> Result<Row<u8>, Fail> {
    let mut sent = frames(alloc, output.get(..count).unwrap_or(&[]))?;
    match u8::try_from(count) {
        Ok(number) if number < 255 => put_stopped(&mut sent, alloc, status, number + 1)?,
        _ => return Err("the stop record's number is above one octet".into()),
    }
    Ok(sent)
}

/// Whether an input that ends inside this frame, behind others, ends with 5.
fn torn(
    form: Form,
    alloc: Global,
    before: &Row<u8>,
    content: &str,
    sent: &Row<u8>,
) -> Result<bool, Fail> {
    let frame = frames(alloc, &[content])?;
    for cut in 1..frame.len() {
        let mut front = frame.copy(alloc)?;
        front.cut(cut);
        let mut input = before.copy(alloc)?;
        input.append(front.as_slice())?;
        if !ends(form, alloc, &input, &WHOLE, 5, sent)? {
            return Ok(false);
        }
    }
    Ok(true)
}

/// Whether a frame of all but the end of this content, behind others, ends with 5.
fn malformed(
    form: Form,
    alloc: Global,
    before: &Row<u8>,
    content: &str,
    sent: &Row<u8>,
) -> Result<bool, Fail> {
    let mut octets = Row::new(alloc);
    put(&mut octets, alloc, content)?;
    for cut in 0..octets.len() {
        let mut front = octets.copy(alloc)?;
        front.cut(cut);
        let mut input = before.copy(alloc)?;
        put_frame(&mut input, front.as_slice())?;
        if !ends(form, alloc, &input, &WHOLE, 5, sent)? {
            return Ok(false);
        }
    }
    Ok(true)
}

/// Whether each of the frames, cut after each of its octets, stops the run with its number.
fn cuts(form: Form, alloc: Global, input: &[&str], output: &[&str]) -> Result<bool, Fail> {
    for (count, content) in input.iter().enumerate() {
        let before = frames(alloc, input.get(..count).unwrap_or(&[]))?;
        let sent = stopped_behind(alloc, output, count, 5)?;
        if !torn(form, alloc, &before, *content, &sent)?
            || !malformed(form, alloc, &before, *content, &sent)?
        {
            return Ok(false);
        }
    }
    Ok(true)
}

#[test]
fn frames_cut_after_each_octet(rt: HostRuntime) -> Result<(), Fail> {
    let alloc = rt.alloc();
    assert!(rt; cuts(Form::Eim, alloc, &EIM_IN, &EIM_OUT)?);
    assert!(rt; cuts(Form::Ipa, alloc, &IPA_IN, &IPA_OUT)?);
    Ok(())
}

/// A second frame that is no element, and a frame above the limit of 262,144 octets.
#[test]
fn inputs_that_stop(rt: HostRuntime) -> Result<(), Fail> {
    let alloc = rt.alloc();
    let input = frames(alloc, &["a4028300", "86"])?;
    let sent = stopped_behind(alloc, &["a103800101"], 1, 5)?;
    assert!(rt; ends(Form::Eim, alloc, &input, &WHOLE, 5, &sent)?);
    let mut long = Row::new(alloc);
    put(&mut long, alloc, "00040001")?;
    let sent = stopped_behind(alloc, &[], 0, 7)?;
    assert!(rt; ends(Form::Eim, alloc, &long, &WHOLE, 7, &sent)?);
    assert!(rt; ends(Form::Ipa, alloc, &long, &WHOLE, 7, &sent)?);
    Ok(())
}

/// Whether a source that fails at each call in turn ends the run with 2; there are two calls a
/// frame.
fn failing_reads(form: Form, alloc: Global, input: &[&str], output: &[&str]) -> Result<bool, Fail> {
    let octets = frames(alloc, input)?;
    for count in 0..input.len() {
        let sent = stopped_behind(alloc, output, count, 2)?;
        let call = count as u64 * 2;
        let [head, content] = [[call], [call + 1]];
        for failing in [&head, &content] {
            let edge = Edge { failing, ..WHOLE };
            if !ends(form, alloc, &octets, &edge, 2, &sent)? {
                return Ok(false);
            }
        }
    }
    Ok(true)
}

/// Whether a sink that fails at each call in turn, or has room for so many octets, ends the run
/// with 3.
fn failing_writes(
    form: Form,
    alloc: Global,
    input: &[&str],
    output: &[&str],
) -> Result<bool, Fail> {
    let octets = frames(alloc, input)?;
    for count in 0..output.len() {
        let sent = frames(alloc, output.get(..count).unwrap_or(&[]))?;
        let refusing = [count as u64];
        let edge = Edge {
            refusing: &refusing,
            ..WHOLE
        };
        if !ends(form, alloc, &octets, &edge, 3, &sent)? {
            return Ok(false);
        }
    }
    Ok(true)
}

/// Whether a sink with room for less than all answers takes what it can, and ends the run with 3.
fn little_rooms(form: Form, alloc: Global, input: &[&str], output: &[&str]) -> Result<bool, Fail> {
    let octets = frames(alloc, input)?;
    let all = frames(alloc, output)?;
    for room in 0..all.len() {
        let mut sent = all.copy(alloc)?;
        sent.cut(room);
        let edge = Edge { room, ..WHOLE };
        if !ends(form, alloc, &octets, &edge, 3, &sent)? {
            return Ok(false);
        }
    }
    Ok(true)
}

#[test]
fn edges_that_fail(rt: HostRuntime) -> Result<(), Fail> {
    let alloc = rt.alloc();
    assert!(rt; failing_reads(Form::Eim, alloc, &EIM_IN, &EIM_OUT)?);
    assert!(rt; failing_reads(Form::Ipa, alloc, &IPA_IN, &IPA_OUT)?);
    assert!(rt; failing_writes(Form::Eim, alloc, &EIM_IN, &EIM_OUT)?);
    assert!(rt; failing_writes(Form::Ipa, alloc, &IPA_IN, &IPA_OUT)?);
    assert!(rt; little_rooms(Form::Eim, alloc, &EIM_IN, &EIM_OUT)?);
    assert!(rt; little_rooms(Form::Ipa, alloc, &IPA_IN, &IPA_OUT)?);
    Ok(())
}

/// A message of as many octets as a frame has carries a package of 262,123 octets to the card.
#[test]
fn the_greatest_frame_out(rt: HostRuntime) -> Result<(), Fail> {
    let alloc = rt.alloc();
    let mut input = Row::new(alloc);
    put(
        &mut input,
        alloc,
        "00040000 a08303fffb 800165 810101 a28303fff0 808303ffeb",
    )?;
    let mut sent = Row::new(alloc);
    put(
        &mut sent,
        alloc,
        "00040002 308303fffd a08303fff8 a18303fff3 800101 818303ffeb",
    )?;
    for _ in 0..262_123 {
        input.append(&[0x5a])?;
        sent.append(&[0x5a])?;
    }
    assert!(rt; ends(Form::Ipa, alloc, &input, &WHOLE, 0, &sent)?);
    Ok(())
}
