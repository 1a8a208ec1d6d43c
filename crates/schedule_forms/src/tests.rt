//! The worked examples, and what no clause says: texts, however they come and go.

use super::*;
use iot_bytes::{MemSink, MemSource, Row};
use line_loop::{MOST_LINES, MOST_OCTETS};
use std::alloc::Global;
use std::test::Fail;

const DEVICE: &str = "device 000102030405060708090a0b0c0d0e0f -98440000000000000001% \
    -98440000000000000002% -98440000000000000003%\n";

/// The whole worked schedule.
const WORKED: &str = "device 000102030405060708090a0b0c0d0e0f +98440000000000000001%686f6d65 \
-98440000000000000002%726f616d -98440000000000000003%74657374\neim e1\neim e2\n\
initial e1 @coaps://e1.example #04aa\nbind e1 1 0\norder e1 add:e2@coaps://e2.example#04bb\n\
poll e1\nup 0\ndown 0\nbind e2 2 0\npush\nup 1\ndown 1\norder e2 enable!:98440000000000000002\n\
poll e2\nup 2\ndown 2\nmodems\nprobe fail\nprobe fail\nprobe fail\npush\nup 3\npush\nup 4\ndown 4\n\
down 3\nshow\nkept e2\nmodems\ndetach 0\nmodems\n";

/// A source gives so many octets a call and fails at the named calls; a sink takes so many in all,
/// and fails at the named calls.
#[derive(Clone, Copy)]
struct Edge<'a> {
    piece: usize,
    failing: &'a [u64],
    room: usize,
    refusing: &'a [u64],
}

const WHOLE: Edge<'static> = Edge {
    piece: 1 << 20,
    failing: &[],
    room: 1 << 22,
    refusing: &[],
};

fn numbers(alloc: Global, calls: &[u64]) -> Result<Row<u64>, Fail> {
    let mut out = Row::new(alloc);
    out.append(calls)?;
    Ok(out)
}

fn octets(alloc: Global, text: &str) -> Result<Row<u8>, Fail> {
    let mut out = Row::new(alloc);
    out.append(text.as_bytes())?;
    Ok(out)
}

/// Whether a check of these octets ends with the status, and this text is sent.
fn checks(
    alloc: Global,
    input: Row<u8>,
    edge: &Edge<'_>,
    status: u8,
    sent: &str,
) -> Result<bool, Fail> {
    let failing = numbers(alloc, edge.failing)?;
    let refusing = numbers(alloc, edge.refusing)?;
    let mut source = MemSource::new(input, edge.piece.max(1), failing);
    let mut sink = MemSink::new(alloc, edge.room, edge.piece.max(1), refusing)?;
    let ended = run_check(alloc, &mut source, &mut sink);
    Ok(ended == status && sink.taken() == sent.as_bytes())
}

/// Schedules, the status of their check, and what is sent.
const CHECKED: [(&str, u8, &str); 12] = [
    (WORKED, 0, "ok 32\n"),
    (DEVICE, 0, "ok 1\n"),
    ("device 000102030405060708090A0B0C0D0E0F", 0, "ok 1\n"),
    ("", 5, "stopped 5 1\n"),
    ("\n", 5, "stopped 5 1\n"),
    ("eim e1", 5, "stopped 5 1\n"),
    ("eim e1\n", 5, "stopped 5 1\n"),
    ("device 000102030405060708090a0b0c0d0e0f\nshow", 0, "ok 2\n"),
    (
        "device 000102030405060708090a0b0c0d0e0f\nshow\n\n",
        5,
        "stopped 5 3\n",
    ),
    (
        "device 000102030405060708090a0b0c0d0e0f\nshow ",
        5,
        "stopped 5 2\n",
    ),
    (
        "device 000102030405060708090a0b0c0d0e0f\nup 01\nshow",
        5,
        "stopped 5 2\n",
    ),
    (
        "device 000102030405060708090a0b0c0d0e0f\ndevice 000102030405060708090a0b0c0d0e0f",
        5,
        "stopped 5 2\n",
    ),
];

#[test]
fn schedules_checked(rt: HostRuntime) -> Result<(), Fail> {
    let alloc = rt.alloc();
    for (schedule, status, sent) in CHECKED {
        for piece in [1, 3, 1 << 20] {
            let input = octets(alloc, schedule)?;
            let edge = Edge { piece, ..WHOLE };
            assert!(rt;
                checks(alloc, input, &edge, status, sent)?,
                "{sent} by {piece}"
            );
        }
    }
    Ok(())
}

/// A first line and a load of so many octets 00 behind it, with its end.
fn long_line(alloc: Global, digits: usize) -> Result<Row<u8>, Fail> {
    let mut out = octets(alloc, "device 000102030405060708090a0b0c0d0e0f\nload good ")?;
    for _ in 0..digits {
        out.append(b"0")?;
    }
    out.append(b"\n")?;
    Ok(out)
}

/// Lines of 10,000 and of 10,001 octets. Of the second no octet behind the limit is looked at.
#[test]
fn the_limit_on_octets(rt: HostRuntime) -> Result<(), Fail> {
    let alloc = rt.alloc();
    let head = "load good ".len();
    assert_eq!(rt; MOST_OCTETS, 10_000);
    let whole = long_line(alloc, 10_000 - head)?;
    assert!(rt; checks(alloc, whole, &WHOLE, 0, "ok 2\n")?);
    let over = long_line(alloc, 10_001 - head)?;
    assert!(rt; checks(alloc, over, &WHOLE, 7, "stopped 7 2\n")?);
    Ok(())
}

/// As many lines as a schedule may have, and one more, whatever it is.
#[test]
fn the_limit_on_lines(rt: HostRuntime) -> Result<(), Fail> {
    let alloc = rt.alloc();
    assert_eq!(rt; MOST_LINES, 100_000);
    let mut input = octets(alloc, DEVICE)?;
    for _ in 1..100_000 {
        input.append(b"restart\n")?;
    }
    let cases = [("", 0, "ok 100000\n"), ("x", 7, "stopped 7 100001\n")];
    for (more, status, sent) in cases {
        let mut input = input.copy(alloc)?;
        input.append(more.as_bytes())?;
        assert!(rt;
            checks(alloc, input, &WHOLE, status, sent)?,
            "behind it {more}"
        );
    }
    Ok(())
}

/// The device line and a line behind it, and where this text is a schedule when it is cut.
const TWO: &str = "device 000102030405060708090a0b0c0d0e0f\ndown last bad\n";

fn expected_at(cut: usize) -> (u8, &'static str) {
    match cut {
        39 | 40 => (0, "ok 1\n"),
        49 | 53 | 54 => (0, "ok 2\n"),
        0..=38 => (5, "stopped 5 1\n"),
        _ => (5, "stopped 5 2\n"),
    }
}

#[test]
fn a_schedule_cut_after_each_octet(rt: HostRuntime) -> Result<(), Fail> {
    let alloc = rt.alloc();
    for cut in 0..=54 {
        let mut input = octets(alloc, TWO)?;
        input.cut(input.len().min(cut));
        let (status, sent) = expected_at(cut);
        assert!(rt; checks(alloc, input, &WHOLE, status, sent)?, "cut at {cut}");
    }
    Ok(())
}

/// A source that fails at each of its calls: one for each octet, and one at the end.
#[test]
fn sources_that_fail(rt: HostRuntime) -> Result<(), Fail> {
    let alloc = rt.alloc();
    for call in 0..55 {
        let sent = match call {
            0..=39 => "stopped 2 1\n",
            40..=53 => "stopped 2 2\n",
            _ => "stopped 2 3\n",
        };
        let failing = [call];
        let edge = Edge {
            failing: &failing,
            ..WHOLE
        };
        let input = octets(alloc, TWO)?;
        assert!(rt; checks(alloc, input, &edge, 2, sent)?, "at read {call}");
    }
    Ok(())
}

/// Schedules over sinks that fail: the room of the sink, and what it took.
const CUT_SHORT: [(&str, usize, &str); 3] = [(TWO, 0, ""), (TWO, 4, "ok 2"), ("", 9, "stopped 5")];

#[test]
fn sinks_that_fail(rt: HostRuntime) -> Result<(), Fail> {
    let alloc = rt.alloc();
    for (schedule, room, sent) in CUT_SHORT {
        let edge = Edge { room, ..WHOLE };
        let input = octets(alloc, schedule)?;
        assert!(rt;
            checks(alloc, input, &edge, 3, sent)?,
            "with room for {room}"
        );
    }
    let edge = Edge {
        refusing: &[0],
        ..WHOLE
    };
    let input = octets(alloc, TWO)?;
    assert!(rt; checks(alloc, input, &edge, 3, "")?);
    Ok(())
}

/// The first lines that the generator makes of the start 1.
const SEVEN: &str = "device 000102030405060708090a0b0c0d0e0f -98440000000000000001% \
    -98440000000000000002% -98440000000000000003%\neim e1\ninitial e1 @ #\nbind e1 1 0\n\
    up last\nshow\norder e1 enable:98440000000000000002\n";

#[test]
fn schedules_generated(rt: HostRuntime) -> Result<(), Fail> {
    let alloc = rt.alloc();
    let cases = [
        (1, 1 << 10, 0, DEVICE),
        (7, 1 << 10, 0, SEVEN),
        (7, 0, 3, ""),
        (7, 6, 3, "device"),
    ];
    for (lines, room, status, sent) in cases {
        let mut sink = MemSink::new(alloc, room, 3, Row::new(alloc))?;
        assert_eq!(rt; run_gen(alloc, 1, lines, &mut sink), status);
        assert!(rt; sink.taken() == sent.as_bytes(), "{lines} lines in {room}");
    }
    Ok(())
}

/// A generated schedule of as many lines as one may have is checked.
#[test]
fn a_long_schedule_generated(rt: HostRuntime) -> Result<(), Fail> {
    let alloc = rt.alloc();
    let mut sink = MemSink::new(alloc, 1 << 22, 1 << 20, Row::new(alloc))?;
    assert_eq!(rt; run_gen(alloc, 7, MOST_LINES, &mut sink), 0);
    let mut input = Row::new(alloc);
    input.append(sink.taken())?;
    assert!(rt; checks(alloc, input, &WHOLE, 0, "ok 100000\n")?);
    Ok(())
}
