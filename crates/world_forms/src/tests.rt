//! The worked examples, and what no clause says: texts, however they come and go.

ghost use Rattle.std.specs.Prelude.{◌≡◌, ◌<◌, ◌≤◌, ◌^◌, ◌++◌, OnErr, OnOk, length, take};
ghost use Rattle.modem_bank.specs.Modems.{told_one};
ghost use Rattle.small_world.specs.Texts.{modem_entry};

use super::*;
use chip_port::MemChip;
use iot_bytes::{MemSink, MemSource, NoMemory, Row};
use modem_bank::{Modem, PlainModem, SplitModem, tell_one};
use schedule_forms::run_gen;
use sgp_values::Iccid;
use std::alloc::Global;
use std::test::Fail;
use world_text::put_modem;

/// A source gives so many octets a call and fails at the named calls; a sink takes so many in all,
/// and fails at the named calls.
#[derive(Clone, Copy)]
struct Edge<'a> {
    piece: usize,
    failing: &'a [u64],
    room: usize,
    refusing: &'a [u64],
}

const WHOLE: Edge<'static> = Edge {
    piece: 1 << 20,
    failing: &[],
    room: 1 << 20,
    refusing: &[],
};

fn numbers(alloc: Global, calls: &[u64]) -> Result<Row<u64>, Fail> {
    let mut out = Row::new(alloc);
    out.append(calls)?;
    Ok(out)
}

fn tell_boxed(modem: &mut Box<dyn Modem>, now: &Option<Iccid>)
    ensures { (shown_iccid modem.new, refresh_count modem.new)
        ≡ told_one now.now (shown_iccid modem.old, refresh_count modem.old) }
{
    tell_one(&mut **modem, now);
}

fn put_boxed(out: &mut Row<u8>, modem: &Box<dyn Modem>) -> Result<(), NoMemory>
    ensures ok { OnOk result (out.new
        ≡ out.old ++ modem_entry (shown_iccid modem.now, refresh_count modem.now)) }
    ensures err { OnErr result (take (length out.old) out.new ≡ out.old) }
{
    put_modem(out, &modem.shows(), modem.refreshes())
}

/// The status of a replay of this schedule over a new chip, whose first calls may fail, with a
/// split modem behind so many plain ones, and what was sent.
fn replayed_with(
    alloc: Global,
    plain: usize,
    schedule: &str,
    edge: &Edge<'_>,
    broken: &[u64],
) -> Result<(u8, Row<u8>), Fail> {
    let mut input = Row::new(alloc);
    input.append(schedule.as_bytes())?;
    let mut source = MemSource::new(input, edge.piece.max(1), numbers(alloc, edge.failing)?);
    let mut sink = MemSink::new(
        alloc,
        edge.room,
        edge.piece.max(1),
        numbers(alloc, edge.refusing)?,
    )?;
    let mut chip = MemChip::new(alloc, numbers(alloc, broken)?)?;
    let mut modems: Vec<Box<dyn Modem>> = Vec::new(alloc);
    for _ in 0..plain {
        modems.push(Box::new(alloc, PlainModem::new())?)?;
    }
    modems.push(Box::new(alloc, SplitModem::new())?)?;
    let status = run_replay(
        alloc,
        &mut source,
        &mut sink,
        &mut chip,
        &mut modems,
        |modem: &mut Box<dyn Modem>, now: &Option<Iccid>| tell_boxed(modem, now),
        |out: &mut Row<u8>, modem: &Box<dyn Modem>| put_boxed(out, modem),
    );
    let mut sent = Row::new(alloc);
    sent.append(sink.taken())?;
    Ok((status, sent))
}

/// The same with one plain modem.
fn replayed(
    alloc: Global,
    schedule: &str,
    edge: &Edge<'_>,
    broken: &[u64],
) -> Result<(u8, Row<u8>), Fail> {
    replayed_with(alloc, 1, schedule, edge, broken)
}

/// Whether a replay ends with the status, and this text is sent.
fn gives(
    alloc: Global,
    schedule: &str,
    edge: &Edge<'_>,
    status: u8,
    sent: &[u8],
) -> Result<bool, Fail> {
    let (ended, taken) = replayed(alloc, schedule, edge, &[])?;
    Ok(ended == status && taken.as_slice() == sent)
}

const DEVICE: &str = "device 000102030405060708090a0b0c0d0e0f -98440000000000000001% \
    -98440000000000000002% -98440000000000000003%\n";

/// A device gets back to the profile that works; two managers, and two modems.
const WORKED: &str = "device 000102030405060708090a0b0c0d0e0f +98440000000000000001%686f6d65 \
-98440000000000000002%726f616d -98440000000000000003%74657374\neim e1\neim e2\n\
initial e1 @coaps://e1.example #04aa\nbind e1 1 0\norder e1 add:e2@coaps://e2.example#04bb\n\
poll e1\nup 0\ndown 0\nbind e2 2 0\npush\nup 1\ndown 1\norder e2 enable!:98440000000000000002\n\
poll e2\nup 2\ndown 2\nmodems\nprobe fail\nprobe fail\nprobe fail\npush\nup 3\npush\nup 4\ndown 4\n\
down 3\nshow\nkept e2\nmodems\ndetach 0\nmodems\n";

const TRACE: &str = "device 3\neim ok\neim ok\nassociated 1\nbound\nordered 1\nsent 0\n\
reply 0 package\nloaded 1 add=0:2\nbound\nsent 1\nreply 1 ack 1\nremoved 1\nordered 1\nsent 2\n\
reply 2 package\nloaded 2 enable=0\nmodems 98440000000000000002:2 98440000000000000002:2\n\
strikes 1\nstrikes 2\nrolled 3\nsent 3\nreply 3 ack 3\nsent 4\nreply 4 ack 3\nremoved 3\nabsent 3\n\
profiles +98440000000000000001 -98440000000000000002 -98440000000000000003 \
eims e1/1/1 e2/2/1 pending\nkept 2/1/3r\nmodems 98440000000000000001:3 98440000000000000001:3\n\
detached\nmodems 98440000000000000001:3\n";

/// Schedules behind the device and its first manager, and what is printed for them. A cut at call
/// 59 of a package comes as the gate of the journal is closed.
const BEHIND: [(&str, &str); 5] = [
    (
        "order e1 enable:98440000000000000002\npoll e1\nup last\ncut 59 old\ndown last\ndown last\n\
         boot\nshow\ncut 59 new\ndown last\nboot\nshow\ndown last\n",
        "ordered 1\nsent 0\nreply 0 package\nplanned\nlost\noff\nbooted\n\
         profiles -98440000000000000001 -98440000000000000002 -98440000000000000003 eims e1/1/0 \
         pending\nplanned\nlost\nbooted\nprofiles -98440000000000000001 +98440000000000000002 \
         -98440000000000000003 eims e1/1/1 pending 1/e1/1/1\n\
         refused 6 kept 1 received 1 sent 1\n",
    ),
    (
        "cut 0 junk\nboot\nshow\nrollback\nboot\nrollback\nmodems\n",
        "planned\nlost\noff\noff\nbooted\nnot permitted\nmodems -:0 -:0\n",
    ),
    (
        "probe fail\nprobe fail\ncut 0 old\nprobe fail\nprobe fail\nboot\nprobe fail\nprobe ok\n",
        "strikes 1\nstrikes 2\nplanned\nlost\nstrikes 1\nbooted\nstrikes 2\nstrikes 0\n",
    ),
    (
        "poll e2\nup 0\ndown last\nkept e2\nskip e2\ndetach 2\nskip e1\npush\nrestart\neim e1\n",
        "no such\nno such\nno such\nno such\nno such\nno such\nnone waiting\nnothing pending\n\
         restarted\neim exists\n",
    ),
    (
        "load good 00\nload bad 00\ncut 3 new\nboot\nload good 00\n",
        "refused 1\nrefused 1\nplanned\nlost\noff\n",
    ),
];

#[test]
fn schedules_replayed(rt: HostRuntime) -> Result<(), Fail> {
    let alloc = rt.alloc();
    for piece in [1, 3, 1 << 20] {
        let edge = Edge { piece, ..WHOLE };
        assert!(rt;
            gives(alloc, WORKED, &edge, 0, TRACE.as_bytes())?,
            "by {piece}"
        );
    }
    for (lines, printed) in BEHIND {
        let mut schedule = String::from_str(alloc, DEVICE)?;
        schedule.push_str("eim e1\ninitial e1 @ #\nbind e1 1 0\n")?;
        schedule.push_str(lines)?;
        let mut trace = Row::new(alloc);
        trace.append(b"device 3\neim ok\nassociated 1\nbound\n")?;
        trace.append(printed.as_bytes())?;
        assert!(rt;
            gives(alloc, schedule.as_str(), &WHOLE, 0, trace.as_slice())?,
            "for {lines}"
        );
    }
    Ok(())
}

/// The second of three modems is taken away, and the list then has no third one.
#[test]
fn modems_taken_away(rt: HostRuntime) -> Result<(), Fail> {
    let schedule = "device 000102030405060708090a0b0c0d0e0f +98440000000000000001% \
        -98440000000000000002%\ndetach 1\nmodems\ndetach 2\nmodems\ndetach 0\nmodems\n";
    let trace = "device 2\ndetached\nmodems 98440000000000000001:1 98440000000000000001:1\n\
        no such\nmodems 98440000000000000001:1 98440000000000000001:1\ndetached\n\
        modems 98440000000000000001:1\n";
    let (status, sent) = replayed_with(rt.alloc(), 2, schedule, &WHOLE, &[])?;
    assert_eq!(rt; status, 0);
    assert!(rt; sent.as_slice() == trace.as_bytes());
    Ok(())
}

/// Schedules that stop, the status, and what is sent.
const STOPPED: [(&str, u8, &str); 5] = [
    ("", 5, "stopped 5 1\n"),
    ("eim e1\n", 5, "stopped 5 1\n"),
    (
        "device 000102030405060708090a0b0c0d0e0f\n\n",
        5,
        "device 0\nstopped 5 2\n",
    ),
    (
        "device 000102030405060708090a0b0c0d0e0f\nboot\nbooted\nboot\n",
        5,
        "device 0\nbooted\nstopped 5 3\n",
    ),
    ("device 000102030405060708090a0b0c0d0e0f", 0, "device 0\n"),
];

#[test]
fn schedules_that_stop(rt: HostRuntime) -> Result<(), Fail> {
    let alloc = rt.alloc();
    for (schedule, status, sent) in STOPPED {
        assert!(rt;
            gives(alloc, schedule, &WHOLE, status, sent.as_bytes())?,
            "for {schedule}"
        );
    }
    let (status, sent) = replayed(alloc, STOPPED[3].0, &WHOLE, &[0])?;
    assert_eq!(rt; status, 4);
    assert!(rt; sent.as_slice() == "stopped 4 1\n".as_bytes());
    Ok(())
}

/// How many lines end in these octets.
fn lines_in(octets: &[u8]) -> usize {
    octets.iter().filter(|octet| **octet == b'\n').count()
}

/// The first so many lines of a text.
fn first_lines(text: &[u8], count: usize) -> &[u8] {
    let mut seen: usize = 0;
    for (at, octet) in text.iter().enumerate() {
        if seen == count {
            return &text[..at];
        }
        if *octet == b'\n' {
            seen = seen.saturating_add(1);
        }
    }
    text
}

/// A source that fails at each of its calls: one for each octet, and one at the end.
#[test]
fn sources_that_fail(rt: HostRuntime) -> Result<(), Fail> {
    let alloc = rt.alloc();
    for call in 0..=WORKED.len() {
        let handled = lines_in(&WORKED.as_bytes()[..call]);
        let mut sent = Row::new(alloc);
        sent.append(first_lines(TRACE.as_bytes(), handled))?;
        let stop = format!(in alloc; "stopped 2 {}\n", handled.saturating_add(1))?;
        sent.append(stop.as_bytes())?;
        let failing = [call as u64];
        let edge = Edge {
            failing: &failing,
            ..WHOLE
        };
        assert!(rt;
            gives(alloc, WORKED, &edge, 2, sent.as_slice())?,
            "at read {call}"
        );
    }
    Ok(())
}

/// A sink that fails at each of its calls, one for each line, and one with room for 20 octets.
#[test]
fn sinks_that_fail(rt: HostRuntime) -> Result<(), Fail> {
    let alloc = rt.alloc();
    for call in 0..32 {
        let refusing = [call];
        let edge = Edge {
            refusing: &refusing,
            ..WHOLE
        };
        let sent = first_lines(TRACE.as_bytes(), call as usize);
        assert!(rt; gives(alloc, WORKED, &edge, 3, sent)?, "at write {call}");
    }
    let edge = Edge { room: 20, ..WHOLE };
    assert!(rt; gives(alloc, WORKED, &edge, 3, "device 3\neim ok\neim ".as_bytes())?);
    Ok(())
}

/// What is sent for the worked schedule's first lines, of which the fourth is cut: two fronts of it
/// are lines themselves, where the key is empty or has one octet.
fn sent_of(front: usize) -> (u8, &'static str) {
    match front {
        32 | 34 => (0, "device 3\neim ok\neim ok\nassociated 1\n"),
        _ => (5, "device 3\neim ok\neim ok\nstopped 5 4\n"),
    }
}

/// The fourth line has 36 octets. The schedule ends behind each of them but the last.
#[test]
fn a_line_cut_after_each_octet(rt: HostRuntime) -> Result<(), Fail> {
    let alloc = rt.alloc();
    for front in 1..36 {
        let mut input = Row::new(alloc);
        input.append(first_lines(WORKED.as_bytes(), 3))?;
        input.append(&b"initial e1 @coaps://e1.example #04aa"[..front])?;
        let schedule = String::from_utf8_lossy(alloc, input.as_slice())?;
        let (status, sent) = sent_of(front);
        assert!(rt;
            gives(alloc, schedule.as_str(), &WHOLE, status, sent.as_bytes())?,
            "cut after {front}"
        );
    }
    Ok(())
}

/// What is printed for a package that comes twice, with a boot between: the card was cut before the
/// unit counted, or as it did, or wasn't cut.
const TWICE: [&str; 3] = [
    "lost\nbooted\nloaded 1 enable=0\nsent 1\nreply 1 ack 1\n",
    "lost\nbooted\nrefused 6 kept 1 received 1 sent 1\nsent 2\nreply 1 ack 1\n",
    "loaded 1 enable=0\nbooted\nrefused 6 kept 1 received 1 sent 1\nsent 2\nreply 1 ack 1\n",
];

/// The step of the package makes 61 calls. A half of what the gate's closing writes is nothing, so
/// behind it the unit counts.
fn came_of(call: u32) -> &'static str {
    match call {
        0..=58 => TWICE[0],
        59 | 60 => TWICE[1],
        _ => TWICE[2],
    }
}

/// Whether a package that is cut at this call is carried out once, and its result is kept.
fn is_kept(alloc: Global, call: u32) -> Result<bool, Fail> {
    let schedule = format!(in alloc;
        "{DEVICE}eim e1\ninitial e1 @ #\nbind e1 1 0\norder e1 enable:98440000000000000001\n\
        poll e1\nup 0\ncut {call} half\ndown 0\nboot\ndown 0\npush\nup last\nkept e1\n"
    )?;
    let trace = format!(in alloc;
        "device 3\neim ok\nassociated 1\nbound\nordered 1\nsent 0\nreply 0 package\nplanned\n\
        {}kept 1/1/1\n",
        came_of(call)
    )?;
    gives(alloc, schedule.as_str(), &WHOLE, 0, trace.as_bytes())
}

/// The step of a package is cut at each of its calls, until it isn't lost.
#[test]
fn a_package_cut_at_each_call(rt: HostRuntime) -> Result<(), Fail> {
    for call in 0..=61 {
        assert!(rt; is_kept(rt.alloc(), call)?, "at call {call}");
    }
    Ok(())
}

/// The status of a demonstration over a new chip, whose first calls may fail, and what was sent.
fn demonstrated(
    alloc: Global,
    start: u32,
    lines: u32,
    edge: &Edge<'_>,
    broken: &[u64],
) -> Result<(u8, Row<u8>), Fail>
    requires start { start < 2 ^ 31 }
    requires some { 1 ≤ lines }
{
    let mut sink = MemSink::new(
        alloc,
        edge.room,
        edge.piece.max(1),
        numbers(alloc, edge.refusing)?,
    )?;
    let mut chip = MemChip::new(alloc, numbers(alloc, broken)?)?;
    let mut modems: Vec<Box<dyn Modem>> = Vec::new(alloc);
    modems.push(Box::new(alloc, PlainModem::new())?)?;
    modems.push(Box::new(alloc, SplitModem::new())?)?;
    let status = run_demo(
        alloc,
        start,
        lines,
        &mut sink,
        &mut chip,
        &mut modems,
        |modem: &mut Box<dyn Modem>, now: &Option<Iccid>| tell_boxed(modem, now),
        |out: &mut Row<u8>, modem: &Box<dyn Modem>| put_boxed(out, modem),
    );
    let mut sent = Row::new(alloc);
    sent.append(sink.taken())?;
    Ok((status, sent))
}

/// The trace of the schedule that the generator makes.
fn generated_trace(alloc: Global, start: u32, lines: u32) -> Result<String, Fail>
    requires { start < 2 ^ 31 }
{
    let mut sink = MemSink::new(alloc, 1 << 20, 1 << 20, numbers(alloc, &[])?)?;
    run_gen(alloc, start, lines, &mut sink);
    let schedule = String::from_utf8_lossy(alloc, sink.taken())?;
    let (_, trace) = replayed(alloc, schedule.as_str(), &WHOLE, &[])?;
    Ok(String::from_utf8_lossy(alloc, trace.as_slice())?)
}

/// How many lines of a trace begin with a word.
fn lines_with(trace: &str, word: &str) -> usize {
    let mut count: usize = 0;
    for line in trace.lines() {
        if line.starts_with(word) {
            count = count.saturating_add(1);
        }
    }
    count
}

#[test]
fn lines_demonstrated(rt: HostRuntime) -> Result<(), Fail> {
    let alloc = rt.alloc();
    let (status, sent) = demonstrated(alloc, 1, 7, &WHOLE, &[])?;
    assert_eq!(rt; status, 0);
    let told = "demo 7 loaded 0 refused 0 rolled 0 lost 0 removed 0\n";
    assert!(rt; sent.as_slice() == told.as_bytes());
    for (start, lines) in [(1, 600), (77, 400)] {
        let trace = generated_trace(alloc, start, lines)?;
        let (status, sent) = demonstrated(alloc, start, lines, &WHOLE, &[])?;
        let told = format!(in alloc;
            "demo {lines} loaded {} refused {} rolled {} lost {} removed {}\n",
            lines_with(trace.as_str(), "loaded"),
            lines_with(trace.as_str(), "refused"),
            lines_with(trace.as_str(), "rolled"),
            lines_with(trace.as_str(), "lost"),
            lines_with(trace.as_str(), "removed"),
        )?;
        assert_eq!(rt; status, 0);
        assert!(rt; sent.as_slice() == told.as_bytes(), "told {told}");
    }
    Ok(())
}

#[test]
fn demonstrations_that_stop(rt: HostRuntime) -> Result<(), Fail> {
    let alloc = rt.alloc();
    let (status, sent) = demonstrated(alloc, 1, 7, &WHOLE, &[0])?;
    assert_eq!(rt; status, 4);
    assert!(rt; sent.as_slice() == "stopped 4 1\n".as_bytes());
    let short = Edge { room: 4, ..WHOLE };
    let (status, sent) = demonstrated(alloc, 1, 7, &short, &[])?;
    assert_eq!(rt; status, 3);
    assert!(rt; sent.as_slice() == "demo".as_bytes());
    Ok(())
}
