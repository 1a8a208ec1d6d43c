//! Replaying the lines of a generated schedule, of which counts are kept and not the trace.

ghost use Rattle.std.specs.Prelude.{◌≡◌, ◌≢◌, ◌+◌, ◌^◌, ◌<◌, ◌≤◌, ℕ, map, IfErr, IfOk, OnErr};
ghost use Rattle.std.specs.Prelude.{OnOk, Err, List};
ghost use Rattle.chip_port.specs.Rules.{IfTold};
ghost use Rattle.euicc_core.specs.Steps.{IsLitOn};
ghost use Rattle.iot_bytes.specs.Causes.{Rose};
ghost use Rattle.iot_schedule.specs.Making.{state_before};
ghost use Rattle.modem_bank.specs.Modems.{Seen};
ghost use Rattle.modem_bank.specs.Telling.{TellsOne};
ghost use Rattle.schedule_forms.specs.Schedules.{made_lines};
ghost use Rattle.world_text.specs.Putting.{PutsOne};
ghost use Rattle.world_forms.specs.Demos.{IsWithin, Went};
ghost use Rattle.world_forms.specs.Plays.{BeginsPlay, HasPlayed, Makes, Plays};

use crate::replay_part::{begin, go_on};
use crate::tally::Tally;
use chip_port::Bench;
use iot_bytes::{NoMemory, Row};
use iot_schedule::Maker;
use iot_world::World;
use line_loop::LineStop;
use sgp_values::Iccid;
use std::alloc::Global;

/// Why the lines of a generated schedule aren't replayed further, and the number of the line in
/// hand, from 1.
#[derive(Clone, Copy)]
pub(crate) struct Stopped {
    pub stop: LineStop,
    pub number: u32,
}

/// A replay of generated lines: what makes them, the world that they came to, and the counts of
/// what they printed.
#[derive(Drop)]
struct Play {
    maker: Maker,
    world: World,
    tally: Tally,
}

// Makes the line of a number.
fn make_line(alloc: Global, maker: &mut Maker, number: u32) -> Result<Row<u8>, LineStop>
    ensures makes { (start : ℕ) → maker.old.state ≡ state_before start number
        → Makes start number maker.new.state result }
    ensures stop { OnErr result (result ≡ Err LineStop.NoMemory) }
{
    let mut line = Row::new(alloc);
    match maker.next_line(number, &mut line) {
        Ok(()) => Ok(line),
        Err(NoMemory) => Err(LineStop::NoMemory),
    }
}

// Begins with the first line.
fn begin_play<B: Bench, T, F: Fn(&mut T, &Option<Iccid>) + Copy>(
    alloc: Global,
    start: u32,
    bench: &mut B,
    modems: &mut Vec<T>,
    tell: F,
) -> Result<Play, LineStop>
    requires start { start < 2 ^ 31 }
    requires tells { F.IsAlwaysCallable tell }
    ensures state { IfOk result (λ play. play.maker.state ≡ state_before start 2) }
    ensures cause { result ≡ Err LineStop.ChipFault
        → Rose (B.sees bench.old).faults (B.sees bench.new).faults }
    ensures fits { result ≢ Err LineStop.Malformed }
    ensures ready { IfOk result (λ play. IfTold (B.sees bench.new)
        (IsLitOn play.world.card (B.sees bench.new))) }
    ensures begins { (view : T → Seen) → TellsOne F.Fn tell view → IfTold (B.sees bench.old)
        (BeginsPlay (map view modems.old.items) start result (B.sees bench.old)
        (B.sees bench.new) (map view modems.new.items)) }
{
    let mut maker = Maker::new(start);
    let line = make_line(alloc, &mut maker, 1)?;
    let mut out = Row::new(alloc);
    match begin(alloc, line.as_slice(), bench, modems, tell, &mut out) {
        Ok(world) => {
            let mut tally = Tally::new();
            tally.count(out.as_slice());
            Ok(Play {
                maker,
                world,
                tally,
            })
        }
        Err(stop) => Err(stop),
    }
}

// Replays the line of a number, from 2.
fn play_line<
    B: Bench,
    T: Drop,
    F: Fn(&mut T, &Option<Iccid>) + Copy,
    G: Fn(&mut Row<u8>, &T) -> Result<(), NoMemory> + Copy,
>(
    alloc: Global,
    play: &mut Play,
    number: u32,
    bench: &mut B,
    modems: &mut Vec<T>,
    tell: F,
    put: G,
) -> Result<(), LineStop>
    requires tells { F.IsAlwaysCallable tell }
    requires puts { G.IsAlwaysCallable put }
    requires ready { IfTold (B.sees bench.old) (IsLitOn play.old.world.card (B.sees bench.old)) }
    ensures ready { IfTold (B.sees bench.new) (IsLitOn play.new.world.card (B.sees bench.new)) }
    ensures state { (start : ℕ) → play.old.maker.state ≡ state_before start number
        → OnOk result (play.new.maker.state ≡ state_before start (number + 1)) }
    ensures whole { result ≢ Err LineStop.ChipFault }
    ensures fits { (start : ℕ) → play.old.maker.state ≡ state_before start number → number ≢ 1
        → result ≢ Err LineStop.Malformed }
    ensures plays { (view : T → Seen) → TellsOne F.Fn tell view → PutsOne G.Fn put view
        → (first : B) (start count : ℕ) → number ≡ count + 1
        → play.old.maker.state ≡ state_before start number
        → (handed_in : List Seen)
        → HasPlayed play.old handed_in (made_lines start count) count (B.sees first)
        (B.sees bench.old) (map view modems.old.items)
        → Plays play.new handed_in start count result (B.sees first) (B.sees bench.new)
        (map view modems.new.items) }
{
    let line = make_line(alloc, &mut play.maker, number)?;
    let mut out = Row::new(alloc);
    let text = line.as_slice();
    match go_on(
        alloc,
        &mut play.world,
        text,
        bench,
        modems,
        tell,
        put,
        &mut out,
    ) {
        Ok(()) => {
            play.tally.count(out.as_slice());
            Ok(())
        }
        Err(stop) => Err(stop),
    }
}

/// Replays the schedule of so many lines that the generator makes from a start, and gives the
/// counts of what they printed.
///
/// # Errors
/// Why a line isn't replayed, and its number.
pub fn play_lines<
    B: Bench,
    T: Drop,
    F: Fn(&mut T, &Option<Iccid>) + Copy,
    G: Fn(&mut Row<u8>, &T) -> Result<(), NoMemory> + Copy,
>(
    alloc: Global,
    start: u32,
    lines: u32,
    bench: &mut B,
    modems: &mut Vec<T>,
    tell: F,
    put: G,
) -> Result<Tally, Stopped>
    requires start { start < 2 ^ 31 }
    requires some { 1 ≤ lines }
    requires tells { F.IsAlwaysCallable tell }
    requires puts { G.IsAlwaysCallable put }
    ensures within { IsWithin lines result }
    ensures cause { IfErr result (λ at. at.stop ≡ LineStop.ChipFault
        → Rose (B.sees bench.old).faults (B.sees bench.new).faults) }
    ensures fits { IfErr result (λ at. at.stop ≢ LineStop.Malformed) }
    ensures went { (view : T → Seen) → TellsOne F.Fn tell view → PutsOne G.Fn put view
        → IfTold (B.sees bench.old) (Went (map view modems.old.items) start lines result
        (B.sees bench.old) (B.sees bench.new) (map view modems.new.items)) }
{
    let mut play = match begin_play(alloc, start, bench, modems, tell) {
        Ok(play) => play,
        Err(stop) => return Err(Stopped { stop, number: 1 }),
    };
    for made in 1..lines {
        let number = made + 1;
        match play_line(alloc, &mut play, number, bench, modems, tell, put) {
            Ok(()) => (),
            Err(stop) => return Err(Stopped { stop, number }),
        }
    }
    Ok(play.tally)
}
