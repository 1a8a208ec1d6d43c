//! The worked examples, and what no clause says: the octets that are printed, however they come
//! and go.

use crate::run::run;
use crate::status_of;
use crate::words::{Form, form_of_words};
use chip_port::{Bench, MemChip};
use file_chip::FileChip;
use iot_bytes::{MemSink, MemSource, Row, read_hex};
use modem_bank::{Modem, PlainModem};
use run_loop::MOST_FRAMES;
use sgp_values::{Eid, EimId};
use std::alloc::Global;
use std::fs;
use std::io::{self, ErrorKind};
use std::test::Fail;

const PERSONALISE: &str =
    "a0278010000102030405060708090a0b0c0d0e0fa1133011800a984400000000000000018101008200";

const INITIAL: &str = "a6088002653181008200";

// A load of the package of this manager, EID, association and counter, with this verdict.
const LOAD: &str = "a1378001018132 3030302c80026531 8110000102030405060708090a0b0c0d0e0f \
    820101 830101 a40ea00c800a98440000000000000001 8600";

const PERSONALISED: &str = "8000";

const ASSOCIATED: &str = "a903800101";

const LOADED: &str = "a116 3014 800101 81026531 820101 830101 a405a003800100";

const MALFORMED: &str = "8b00";

/// A source gives so many octets a call and fails at the named calls; a sink takes so many in all,
/// and fails at the named calls.
#[derive(Clone, Copy)]
struct Edge<'a> {
    piece: usize,
    failing: &'a [u64],
    room: usize,
    refusing: &'a [u64],
}

const WHOLE: Edge<'static> = Edge {
    piece: 1 << 20,
    failing: &[],
    room: 1 << 21,
    refusing: &[],
};

/// Appends the octets of a text in hexadecimal; spaces are for its reader.
fn put(out: &mut Row<u8>, alloc: Global, text: &str) -> Result<(), Fail> {
    let mut digits = Row::new(alloc);
    for octet in text.as_bytes() {
        if *octet != b' ' {
            digits.append(&[*octet])?;
        }
    }
    let Ok(octets) = read_hex(alloc, digits.as_slice()) else {
        return Err("the text isn't hexadecimal".into());
    };
    out.append(octets.as_slice())?;
    Ok(())
}

/// The frames of contents in hexadecimal, and octets behind them.
fn frames(alloc: Global, contents: &[&str], rest: &str) -> Result<Row<u8>, Fail> {
    let mut out = Row::new(alloc);
    for content in contents {
        let mut octets = Row::new(alloc);
        put(&mut octets, alloc, content)?;
        let Ok(len) = u32::try_from(octets.len()) else {
            return Err("the content is too long".into());
        };
        out.append(&len.to_be_bytes())?;
        out.append(octets.as_slice())?;
    }
    put(&mut out, alloc, rest)?;
    Ok(out)
}

/// Appends the frame of a content, if there is one.
fn put_one(out: &mut Row<u8>, alloc: Global, content: Option<&&str>) -> Result<(), Fail> {
    if let Some(content) = content {
        out.append(frames(alloc, &[*content], "")?.as_slice())?;
    }
    Ok(())
}

/// The words of a line that has a bar between each two.
fn words_of(alloc: Global, line: &str) -> Result<Vec<String>, Fail> {
    let mut words = Vec::new(alloc);
    for word in line.split('|') {
        words.push(String::from_str(alloc, word)?)?;
    }
    Ok(words)
}

/// The status of a run over an input and a bench, and what was sent.
fn ran<B: Bench>(
    alloc: Global,
    words: &[String],
    input: &Row<u8>,
    edge: &Edge<'_>,
    bench: &mut B,
) -> Result<(u8, Row<u8>), Fail> {
    let mut failing = Row::new(alloc);
    failing.append(edge.failing)?;
    let mut refusing = Row::new(alloc);
    refusing.append(edge.refusing)?;
    let mut source = MemSource::new(input.copy(alloc)?, edge.piece.max(1), failing);
    let mut sink = MemSink::new(alloc, edge.room, edge.piece.max(1), refusing)?;
    let mut modems: Vec<Box<dyn Modem>> = Vec::new(alloc);
    modems.push(Box::new(alloc, PlainModem::new())?)?;
    let status = run(alloc, words, &mut source, &mut sink, bench, &mut modems);
    let mut sent = Row::new(alloc);
    sent.append(sink.taken())?;
    Ok((status, sent))
}

/// Whether `card x` over an input ends with the status, and these octets are sent.
fn ends(
    alloc: Global,
    input: &Row<u8>,
    edge: &Edge<'_>,
    status: u8,
    sent: &Row<u8>,
) -> Result<bool, Fail> {
    let words = words_of(alloc, "card|x")?;
    let mut chip = MemChip::new(alloc, Row::new(alloc))?;
    let (ended, taken) = ran(alloc, &words, input, edge, &mut chip)?;
    Ok(ended == status && taken == *sent)
}

/// Whether frames and octets behind them, in pieces of 1, of 3 and of all octets, end with the
/// status, and these frames are sent.
fn gives(
    alloc: Global,
    input: &[&str],
    rest: &str,
    status: u8,
    sent: &[&str],
) -> Result<bool, Fail> {
    let input = frames(alloc, input, rest)?;
    let sent = frames(alloc, sent, "")?;
    for piece in [1, 3, 1 << 20] {
        if !ends(alloc, &input, &Edge { piece, ..WHOLE }, status, &sent)? {
            return Ok(false);
        }
    }
    Ok(true)
}

/// What follows the first two frames, and its answers.
#[test]
fn sequences_of_commands(rt: HostRuntime) -> Result<(), Fail> {
    let alloc = rt.alloc();
    let padded = "a1388001018133 3031302d80026531 8110000102030405060708090a0b0c0d0e0f \
        820101 83020001 a40ea00c800a98440000000000000001 8600";
    let other_card = "a1378001018132 3030302c80026531 8110000102030405060708090a0b0c0d0e10 \
        820101 830101 a40ea00c800a98440000000000000001 8600";
    let add = "a133800101812e 302c302880026531 8110000102030405060708090a0b0c0d0e0f \
        820101 830101 a50aa80880026532 81008200 8600";
    let results = "a716 3014 800101 81026531 820101 830101 a405a003800100";
    let cases: [(&[&str], &[&str]); 7] = [
        (&[LOAD, LOAD], &[LOADED, "a209 800106 810101 820101"]),
        (&[padded, LOAD], &["a209 800101 810100 820100", LOADED]),
        (&[other_card], &["a209 800104 810100 820100"]),
        (
            &[add],
            &["a119 3017 800101 81026531 820101 830101 a408a806800100810102"],
        ),
        // the fourth worked example
        (
            &[
                LOAD,
                "8500",
                "8400",
                "8200",
                "a303800101",
                "a303800101",
                INITIAL,
                PERSONALISE,
                "ff",
            ],
            &[
                LOADED,
                "a80e 300c 80026531 8100 820101 830101",
                results,
                "8400",
                "8500",
                "8600",
                "aa03800101",
                "8c00",
                MALFORMED,
            ],
        ),
        (&["", "ff"], &[MALFORMED, MALFORMED]),
        (&[], &[]),
    ];
    for (commands, answers) in cases {
        let mut input = frames(alloc, &[PERSONALISE, INITIAL], "")?;
        input.append(frames(alloc, commands, "")?.as_slice())?;
        let mut sent = frames(alloc, &[PERSONALISED, ASSOCIATED], "")?;
        sent.append(frames(alloc, answers, "")?.as_slice())?;
        for piece in [1, 3, 1 << 20] {
            let edge = Edge { piece, ..WHOLE };
            assert!(rt;
                ends(alloc, &input, &edge, 0, &sent)?,
                "for {}",
                commands.len()
            );
        }
    }
    Ok(())
}

/// Frames behind the first two whose content is broken in one place, and the answer. The run goes
/// on behind each.
const BROKEN: [(&str, &str); 9] = [
    // a result's number 0, a padded one, a long form of a length below 128
    ("a303800100", MALFORMED),
    ("a30480020001", MALFORMED),
    ("a38103800101", MALFORMED),
    // a listing that isn't empty, octets behind the end, an element cut short
    ("840100", MALFORMED),
    ("a30380010100", MALFORMED),
    ("a3028001", MALFORMED),
    // a verdict 2, and a load of one octet 00, which is a command
    ("a106800102810100", MALFORMED),
    ("a106800101810100", "a209 800101 810100 820100"),
    // a tag whose low bits are all set
    ("bf03800101", MALFORMED),
];

#[test]
fn broken_commands(rt: HostRuntime) -> Result<(), Fail> {
    for (broken, answer) in BROKEN {
        let input = [PERSONALISE, INITIAL, broken, INITIAL];
        let sent = [PERSONALISED, ASSOCIATED, answer, "aa03800101"];
        assert!(rt; gives(rt.alloc(), &input, "", 0, &sent)?, "for {broken}");
    }
    Ok(())
}

/// A package that enables another profile may be rolled back once.
#[test]
fn a_permitted_rollback(rt: HostRuntime) -> Result<(), Fail> {
    let two = "a03a8010000102030405060708090a0b0c0d0e0f \
        a126 3011800a98440000000000000001810101 8200 3011800a98440000000000000002810100 8200";
    let flagged = "a1398001018134 3032302e80026531 8110000102030405060708090a0b0c0d0e0f \
        820101 830101 a410a00e800a984400000000000000028100 8600";
    let removals = ["8200", "8200", "8400", "a303800101", "a303800102"];
    let answers = [
        "a303800102",
        "8400",
        "a718 3016 800102 81026531 820101 830101 a405a003800100 8500",
        "8600",
        "8500",
    ];
    let alloc = rt.alloc();
    let mut input = frames(alloc, &[two, INITIAL, flagged], "")?;
    input.append(frames(alloc, &removals, "")?.as_slice())?;
    let mut sent = frames(alloc, &[PERSONALISED, ASSOCIATED, LOADED], "")?;
    sent.append(frames(alloc, &answers, "")?.as_slice())?;
    assert!(rt; ends(alloc, &input, &WHOLE, 0, &sent)?);
    Ok(())
}

/// Appends the load of a package of one list with this counter.
fn put_list(out: &mut Row<u8>, alloc: Global, counter: u8) -> Result<(), Fail> {
    let before = "0000002d a12b8001018126 3024302080026531 8110000102030405060708090a0b0c0d0e0f \
        820101 8301";
    put(out, alloc, before)?;
    out.append(&[counter])?;
    put(out, alloc, "a4028300 8600")
}

/// Appends its answer, where this is the number of the result too.
fn put_listed(out: &mut Row<u8>, alloc: Global, number: u8) -> Result<(), Fail> {
    put(out, alloc, "00000028 a126 3024 8001")?;
    out.append(&[number])?;
    put(out, alloc, "81026531 820101 8301")?;
    out.append(&[number])?;
    put(
        out,
        alloc,
        "a415a3133011800a98440000000000000001810100 8200",
    )
}

/// Eight results are kept, and a ninth package finds no room until one is removed.
#[test]
fn results_are_kept(rt: HostRuntime) -> Result<(), Fail> {
    let alloc = rt.alloc();
    let mut input = frames(alloc, &[PERSONALISE, INITIAL], "")?;
    let mut sent = frames(alloc, &[PERSONALISED, ASSOCIATED], "")?;
    for number in 1..9 {
        put_list(&mut input, alloc, number)?;
        put_listed(&mut sent, alloc, number)?;
    }
    put_list(&mut input, alloc, 9)?;
    put(&mut input, alloc, "00000005 a303800105")?;
    put_list(&mut input, alloc, 9)?;
    put(&mut sent, alloc, "0000000b a209 800107 810100 820100")?;
    put(&mut sent, alloc, "00000002 8500")?;
    put_listed(&mut sent, alloc, 9)?;
    assert!(rt; ends(alloc, &input, &WHOLE, 0, &sent)?);
    Ok(())
}

/// Nothing that was answered is lost wherever the input ends, and only a whole frame is answered.
#[test]
fn input_cut_after_each_octet(rt: HostRuntime) -> Result<(), Fail> {
    let alloc = rt.alloc();
    let octets = frames(alloc, &[PERSONALISE, INITIAL, LOAD], "")?;
    let ends_of_frames = [0, 45, 59, 120];
    let answers = [PERSONALISED, ASSOCIATED, LOADED];
    let stopped = [
        "ad06 800105 810101",
        "ad06 800105 810102",
        "ad06 800105 810103",
    ];
    for cut in 0..=octets.len() {
        let mut input = octets.copy(alloc)?;
        input.cut(cut);
        let whole = ends_of_frames
            .iter()
            .filter(|end| **end <= cut && **end > 0)
            .count();
        let mut sent = frames(alloc, answers.get(..whole).unwrap_or(&[]), "")?;
        let torn = !ends_of_frames.contains(&cut);
        if torn {
            put_one(&mut sent, alloc, stopped.get(whole))?;
        }
        let status = if torn { 5 } else { 0 };
        assert!(rt; ends(alloc, &input, &WHOLE, status, &sent)?, "cut at {cut}");
    }
    Ok(())
}

#[test]
fn inputs_that_stop(rt: HostRuntime) -> Result<(), Fail> {
    let alloc = rt.alloc();
    let two_enabled = "a03a8010000102030405060708090a0b0c0d0e0f \
        a126 3011800a98440000000000000001810101 8200 3011800a98440000000000000002810101 8200";
    let unrecognised = "ad06 800108 810101";
    let cases: [(&[&str], &str, u8, &[&str]); 9] = [
        // the first frame doesn't personalise a card
        (&[INITIAL], "", 8, &[unrecognised]),
        (&["", PERSONALISE], "", 8, &[unrecognised]),
        (&[two_enabled, LOAD], "", 8, &[unrecognised]),
        // a frame above the limit of 262,144 octets, and one at the limit that isn't whole
        (&[], "00040001", 7, &["ad06 800107 810101"]),
        (
            &[PERSONALISE],
            "00040001 ff",
            7,
            &[PERSONALISED, "ad06 800107 810102"],
        ),
        (
            &[PERSONALISE],
            "00040000",
            5,
            &[PERSONALISED, "ad06 800105 810102"],
        ),
        (&[], "000000", 5, &["ad06 800105 810101"]),
        (&[PERSONALISE], "", 0, &[PERSONALISED]),
        (&[], "", 0, &[]),
    ];
    for (input, rest, status, sent) in cases {
        assert!(rt;
            gives(alloc, input, rest, status, sent)?,
            "{status} behind {rest}"
        );
    }
    Ok(())
}

/// The first load over edges that fail.
#[test]
fn edges_that_fail(rt: HostRuntime) -> Result<(), Fail> {
    let alloc = rt.alloc();
    let input = frames(alloc, &[PERSONALISE, INITIAL, LOAD], "")?;
    let answers = [PERSONALISED, ASSOCIATED, LOADED];
    let stopped = [
        "ad06 800102 810101",
        "ad06 800102 810102",
        "ad06 800102 810103",
        "ad06 800102 810104",
    ];
    // two calls of the source a frame, one of the sink an answer
    for call in 0..7 {
        let at = call as usize / 2;
        let mut sent = frames(alloc, answers.get(..at).unwrap_or(&[]), "")?;
        put_one(&mut sent, alloc, stopped.get(at))?;
        let failing = [call];
        let edge = Edge {
            failing: &failing,
            ..WHOLE
        };
        assert!(rt; ends(alloc, &input, &edge, 2, &sent)?, "at read {call}");
    }
    for call in 0..3 {
        let sent = frames(alloc, answers.get(..call as usize).unwrap_or(&[]), "")?;
        let refusing = [call];
        let edge = Edge {
            refusing: &refusing,
            ..WHOLE
        };
        assert!(rt; ends(alloc, &input, &edge, 3, &sent)?, "at write {call}");
    }
    // a sink with room for 20 octets: five of the last answer
    let sent = frames(alloc, &[PERSONALISED, ASSOCIATED], "00000018 a1")?;
    let edge = Edge {
        room: 20,
        piece: 3,
        ..WHOLE
    };
    assert!(rt; ends(alloc, &input, &edge, 3, &sent)?);
    // the stop record itself finds no room
    let sent = frames(alloc, &[PERSONALISED], "000000")?;
    let edge = Edge {
        room: 9,
        failing: &[2],
        ..WHOLE
    };
    assert!(rt; ends(alloc, &input, &edge, 3, &sent)?);
    Ok(())
}

/// As many frames as a run may have, and octets behind them.
#[test]
fn the_limit_on_frames(rt: HostRuntime) -> Result<(), Fail> {
    let alloc = rt.alloc();
    let mut input = frames(alloc, &[PERSONALISE], "")?;
    let mut sent = frames(alloc, &[PERSONALISED], "")?;
    for _ in 1..MOST_FRAMES {
        input.append(&[0, 0, 0, 1, 0xff])?;
        sent.append(&[0, 0, 0, 2, 0x8b, 0])?;
    }
    for (more, status, last) in [
        ("", 0, ""),
        ("00000001 ff", 7, "0000000a ad08 800107 81030186a1"),
    ] {
        let mut input = input.copy(alloc)?;
        put(&mut input, alloc, more)?;
        let mut sent = sent.copy(alloc)?;
        put(&mut sent, alloc, last)?;
        assert!(rt;
            ends(alloc, &input, &WHOLE, status, &sent)?,
            "behind it {more}"
        );
    }
    Ok(())
}

/// Command lines, with a bar between each two words, and what `status_over_faults` makes of them.
const COMMAND_LINES: [(&str, u8); 93] = [
    ("", 1),
    ("|", 1),
    ("||", 1),
    ("x", 1),
    ("--help", 1),
    ("card", 1),
    ("card|", 1),
    ("card|x", 4),
    ("card| ", 4),
    ("card|card", 4),
    ("card|x|y", 1),
    ("card|x|", 1),
    ("|card|x", 1),
    ("x|card", 1),
    ("Card|x", 1),
    ("CARD|x", 1),
    ("cards|x", 1),
    ("car|x", 1),
    ("card |x", 1),
    (" card|x", 1),
    ("card x", 1),
    ("check", 2),
    ("check|", 1),
    ("check|x", 1),
    ("x|check", 1),
    ("Check", 1),
    ("checks", 1),
    ("check ", 1),
    ("replay", 2),
    ("replay|", 1),
    ("replay|x", 1),
    ("Replay", 1),
    ("demo|1|7", 4),
    ("demo|1|0", 1),
    ("demo|2147483648|5", 1),
    ("demo|1", 1),
    ("ipa", 1),
    ("ipa|", 1),
    ("ipa|000102030405060708090a0b0c0d0e0f", 2),
    ("ipa|000102030405060708090A0B0C0D0E0F", 2),
    ("ipa|FfFfFfFfFfFfFfFfFfFfFfFfFfFfFfFf", 2),
    ("ipa|000102030405060708090a0b0c0d0e", 1),
    ("ipa|000102030405060708090a0b0c0d0e0", 1),
    ("ipa|000102030405060708090a0b0c0d0e0f0", 1),
    ("ipa|000102030405060708090a0b0c0d0e0f00", 1),
    ("ipa|000102030405060708090a0b0c0d0e0g", 1),
    ("ipa|0x0102030405060708090a0b0c0d0e0f", 1),
    ("ipa|000102030405060708090a0b0c0d0e0f|x", 1),
    ("ipa|e1|000102030405060708090a0b0c0d0e0f", 1),
    ("IPA|000102030405060708090a0b0c0d0e0f", 1),
    ("eim|e1", 1),
    ("eim|000102030405060708090a0b0c0d0e0f", 1),
    ("eim|e|000102030405060708090a0b0c0d0e0f", 2),
    ("eim|e1|000102030405060708090A0B0C0D0E0F", 2),
    ("eim||000102030405060708090a0b0c0d0e0f", 1),
    ("eim|e1|", 1),
    ("eim|e1|000102030405060708090a0b0c0d0e0", 1),
    ("eim|e1|000102030405060708090a0b0c0d0e0f|x", 1),
    ("eim|e 1|000102030405060708090a0b0c0d0e0f", 1),
    ("eim|e/1|000102030405060708090a0b0c0d0e0f", 1),
    ("eim|é|000102030405060708090a0b0c0d0e0f", 1),
    ("Eim|e1|000102030405060708090a0b0c0d0e0f", 1),
    // an identifier of 128 octets, and one of 129
    (
        "eim|0123456789ABCDEFGHIJKLMNOPQRSTUVWXYZabcdefghijklmnopqrstuvwxyz-_\
        0123456789ABCDEFGHIJKLMNOPQRSTUVWXYZabcdefghijklmnopqrstuvwxyz-_\
        |000102030405060708090a0b0c0d0e0f",
        2,
    ),
    (
        "eim|0123456789ABCDEFGHIJKLMNOPQRSTUVWXYZabcdefghijklmnopqrstuvwxyz-_\
        0123456789ABCDEFGHIJKLMNOPQRSTUVWXYZabcdefghijklmnopqrstuvwxyz-_.\
        |000102030405060708090a0b0c0d0e0f",
        1,
    ),
    ("gen|1|1", 3),
    ("gen|0|100000", 3),
    ("gen|2147483647|1", 3),
    ("gen|2147483648|5", 1),
    ("gen|1|0", 1),
    ("gen|0|100001", 1),
    // 2^32 + 1 and 2^64 + 1
    ("gen|4294967297|1", 1),
    ("gen|1|4294967297", 1),
    ("gen|18446744073709551617|1", 1),
    ("gen|1|18446744073709551617", 1),
    ("gen|01|1", 1),
    ("gen|1|01", 1),
    ("gen|00|1", 1),
    ("gen|+1|1", 1),
    ("gen|1|+1", 1),
    ("gen|-1|1", 1),
    ("gen|-0|1", 1),
    ("gen| 1|1", 1),
    ("gen|1|1 ", 1),
    ("gen|0x1|1", 1),
    ("gen|1|1.0", 1),
    ("gen|1|1_000", 1),
    ("gen|last|1", 1),
    ("gen||1", 1),
    ("gen|1|", 1),
    ("gen", 1),
    ("gen|1", 1),
    ("gen|1|1|1", 1),
    ("GEN|1|1", 1),
];

/// The status over a chip and a source of which the first call fails, and a sink with room for a
/// stop record alone: it tells what the words ask for. Words without a form send nothing.
fn status_over_faults(alloc: Global, words: &[String]) -> Result<u8, Fail> {
    let mut failing = Row::new(alloc);
    failing.append(&[0])?;
    let mut chip = MemChip::new(alloc, failing)?;
    let edge = Edge {
        failing: &[0],
        room: 12,
        ..WHOLE
    };
    let (status, sent) = ran(alloc, words, &Row::new(alloc), &edge, &mut chip)?;
    if status == 1 && !sent.is_empty() {
        return Err("words without a form sent something".into());
    }
    Ok(status)
}

#[test]
fn command_lines(rt: HostRuntime) -> Result<(), Fail> {
    let alloc = rt.alloc();
    for (line, status) in COMMAND_LINES {
        let words = words_of(alloc, line)?;
        assert_eq!(rt; status_over_faults(alloc, &words)?, status, "of {line}");
    }
    assert_eq!(rt; status_over_faults(alloc, &[])?, 1);
    // a word that isn't UTF-8 is invalid data
    assert_eq!(rt; status_of(&io::Error::from(ErrorKind::InvalidData)), 1);
    assert_eq!(rt; status_of(&io::Error::from(ErrorKind::OutOfMemory)), 6);
    Ok(())
}

/// What the words of a command line give.
#[test]
fn values_of_words(rt: HostRuntime) -> Result<(), Fail> {
    let alloc = rt.alloc();
    let id = EimId::of(b"e1")?;
    let eid = Eid::of(&[0, 1, 2, 3, 4, 5, 6, 7, 8, 9, 10, 11, 12, 13, 14, 15])?;
    let start = 2_147_483_647;
    let lines = 100_000;
    let cases = [
        ("card|x", Form::Card),
        ("check", Form::Check),
        ("replay", Form::Replay),
        ("ipa|000102030405060708090A0b0C0d0E0f", Form::Ipa { eid }),
        (
            "eim|e1|000102030405060708090A0B0C0D0E0F",
            Form::Eim { id, eid },
        ),
        ("gen|2147483647|100000", Form::Gen { start, lines }),
        ("demo|2147483647|100000", Form::Demo { start, lines }),
    ];
    for (line, form) in cases {
        let words = words_of(alloc, line)?;
        assert!(rt; form_of_words(&words) == Some(form), "of {line}");
    }
    Ok(())
}

/// Runs of `card` one after the other: the file, what is asked, the status, and what is sent.
const RUNS: [(&str, &[&str], u8, &[&str]); 8] = [
    // a new file, which a run without a frame leaves without a card
    ("new", &[], 0, &[]),
    (
        "new",
        &[PERSONALISE, INITIAL, LOAD],
        0,
        &[PERSONALISED, ASSOCIATED, LOADED],
    ),
    // a further run goes on with that card
    (
        "new",
        &[PERSONALISE, INITIAL, LOAD, "8400"],
        0,
        &[
            "8c00",
            "aa03800101",
            "a209 800106 810101 820101",
            "a716 3014 800101 81026531 820101 830101 a405a003800100",
        ],
    ),
    // another file is another card
    ("other", &[PERSONALISE], 0, &[PERSONALISED]),
    // what isn't a card stays so unless a first frame makes one
    ("text", &[], 0, &[]),
    ("text", &["8400"], 8, &["ad06 800108 810101"]),
    // files that can't be had
    ("no/such/folder", &[PERSONALISE], 4, &["ad06 800104 810100"]),
    (".", &[PERSONALISE], 4, &["ad06 800104 810100"]),
];

#[test]
fn cards_in_files(rt: HostRuntime) -> Result<(), Fail> {
    let alloc = rt.alloc();
    fs::write(&rt, "text", "no card")?;
    for (path, asked, status, answered) in RUNS {
        let words = [
            String::from_str(alloc, "card")?,
            String::from_str(alloc, path)?,
        ];
        let input = frames(alloc, asked, "")?;
        let mut chip = FileChip::at(&rt, path);
        let (ended, sent) = ran(alloc, &words, &input, &WHOLE, &mut chip)?;
        assert_eq!(rt; ended, status, "over {path}");
        assert!(rt; sent == frames(alloc, answered, "")?, "over {path}");
    }
    assert!(rt; fs::read(&rt, "text")?.as_slice() == b"no card".as_slice());
    Ok(())
}
