//! What replays the lines of a schedule.

ghost use Rattle.std.specs.Prelude.{◌≡◌, ◌++◌, ◌∷◌, [], ℕ, map, Some, None};
ghost use Rattle.std.specs.Prelude.{Ok, Err, IfOk, OnOk, OnErr};
ghost use Rattle.card_store.specs.Looking.{HasCauseOf};
ghost use Rattle.chip_port.specs.Rules.{IfTold};
ghost use Rattle.euicc_core.specs.Steps.{IsLitOn};
ghost use Rattle.iot_schedule.specs.Devices.{device_at};
ghost use Rattle.iot_schedule.specs.Ranges.{IsDevice, IsStep};
ghost use Rattle.iot_schedule.specs.Steps.{step_at};
ghost use Rattle.iot_world.specs.Turns.{StandsWith};
ghost use Rattle.modem_bank.specs.Modems.{Seen};
ghost use Rattle.modem_bank.specs.Telling.{TellsOne};
ghost use Rattle.small_world.specs.Printing.{device_printed};
ghost use Rattle.small_world.specs.Worlds.{SmallWorld};
ghost use Rattle.world_text.specs.Putting.{PutsOne};
ghost use Rattle.world_forms.specs.Handling.{BeginsBy, GoesOn, Grows, IsReadAs, Spells, of_halt};
ghost use Rattle.world_forms.specs.Handling.{of_make};

use chip_port::Bench;
use iot_bytes::{NoMemory, Row};
use iot_schedule::{Device, Line, read_device, read_step};
use iot_world::{Halt, World};
use line_loop::{EndStop, LinePart, LineStop};
use sgp_values::Iccid;
use std::alloc::Global;
use world_card::MakeError;
use world_text::put_device;

/// What replays lines: the world that they came to, none before the first one. `tell` tells one
/// modem of the list that is lent, and `put` appends what one shows and counts.
#[derive(Drop)]
pub(crate) struct ReplayPart<F, G> {
    pub world: Option<World>,
    pub tell: F,
    pub put: G,
}

fn of_make(error: MakeError) -> LineStop
    ensures { result ≡ of_make error }
{
    match error {
        MakeError::Failed => LineStop::ChipFault,
        MakeError::NoMemory => LineStop::NoMemory,
    }
}

fn of_halt(halt: Halt) -> LineStop
    ensures { result ≡ of_halt halt }
{
    match halt {
        Halt::Limit => LineStop::Limit,
        Halt::Foreign => LineStop::Unrecognised,
        Halt::NoMemory => LineStop::NoMemory,
    }
}

// The device that the first line spells.
fn device_of(alloc: Global, text: &[u8]) -> Result<Device, LineStop>
    ensures spells { Spells (device_at text.now) result }
    ensures range { IfOk result (λ device. IsDevice device) }
{
    Ok(read_device(alloc, text)?)
}

// What a further line spells.
fn line_of(alloc: Global, text: &[u8]) -> Result<Line, LineStop>
    ensures spells { Spells (step_at text.now) result }
    ensures range { IfOk result (λ line. IsStep line) }
{
    Ok(read_step(alloc, text)?)
}

// Appends what the first line prints, with its end.
fn put_first(out: &mut Row<u8>, profiles: usize) -> Result<(), NoMemory>
    ensures { OnOk result (out.new ≡ out.old ++ (device_printed profiles ++ 10 ∷ [])) }
{
    put_device(out, profiles)?;
    out.append(b"\n")
}

// Appends the text of a line, with its end.
fn put_ended(out: &mut Row<u8>, text: &[u8]) -> Result<(), NoMemory>
    ensures { OnOk result (out.new ≡ out.old ++ (text.now ++ 10 ∷ [])) }
{
    out.append(text)?;
    out.append(b"\n")
}

// The first line: the device's card is made. Its text is put before, so that nothing is made where
// there is no memory for it.
pub(crate) fn begin<B: Bench, T, F: Fn(&mut T, &Option<Iccid>) + Copy>(
    alloc: Global,
    text: &[u8],
    bench: &mut B,
    modems: &mut Vec<T>,
    tell: F,
    out: &mut Row<u8>,
) -> Result<World, LineStop>
    requires { F.IsAlwaysCallable tell }
    ensures cause { HasCauseOf LineStop.ChipFault (B.sees bench.old) (B.sees bench.new) result }
    ensures reads { IsReadAs (device_at text.now) result }
    ensures grows { OnOk result (Grows out.old out.new) }
    ensures ready { IfOk result
        (λ world. IfTold (B.sees bench.new) (IsLitOn world.card (B.sees bench.new))) }
    ensures begins { (view : T → Seen) → TellsOne F.Fn tell view → IfTold (B.sees bench.old)
        (BeginsBy (map view modems.old.items) text.now result (B.sees bench.old)
        (B.sees bench.new) (map view modems.new.items) out.old out.new) }
    ensures refused { OnErr result (modems.new.items ≡ modems.old.items) }
{
    let device = device_of(alloc, text)?;
    if put_first(out, device.profiles.len()).is_err() {
        return Err(LineStop::NoMemory);
    }
    match World::start_with(alloc, device, bench, modems, tell) {
        Ok(world) => Ok(world),
        Err(error) => Err(of_make(error)),
    }
}

// A further line: the world takes a step.
pub(crate) fn go_on<
    B: Bench,
    T: Drop,
    F: Fn(&mut T, &Option<Iccid>) + Copy,
    G: Fn(&mut Row<u8>, &T) -> Result<(), NoMemory> + Copy,
>(
    alloc: Global,
    world: &mut World,
    text: &[u8],
    bench: &mut B,
    modems: &mut Vec<T>,
    tell: F,
    put: G,
    out: &mut Row<u8>,
) -> Result<(), LineStop>
    requires tells { F.IsAlwaysCallable tell }
    requires puts { G.IsAlwaysCallable put }
    requires ready { IfTold (B.sees bench.old) (IsLitOn world.old.card (B.sees bench.old)) }
    ensures reads { IsReadAs (step_at text.now) result }
    ensures whole { result ≡ Err LineStop.ChipFault → ⊥ }
    ensures grows { OnOk result (Grows out.old out.new) }
    ensures ready { IfTold (B.sees bench.new) (IsLitOn world.new.card (B.sees bench.new)) }
    ensures goes_on { (first : ℕ) (w : SmallWorld) (view : T → Seen) → TellsOne F.Fn tell view
        → PutsOne G.Fn put view
        → StandsWith first world.old (B.sees bench.old) (map view modems.old.items) w
        → GoesOn first text.now w result world.new (B.sees bench.old) (B.sees bench.new)
        (map view modems.new.items) out.old out.new }
    ensures unread { result ≡ Err LineStop.Malformed
        → (bench.new ≡ bench.old) × (modems.new.items ≡ modems.old.items) }
{
    let line = line_of(alloc, text)?;
    let mut said = Row::new(alloc);
    match world.step_with(alloc, line, bench, modems, tell, put, &mut said) {
        Ok(()) => match put_ended(out, said.as_slice()) {
            Ok(()) => Ok(()),
            Err(NoMemory) => Err(LineStop::NoMemory),
        },
        Err(halt) => Err(of_halt(halt)),
    }
}

impl<
    B: Bench,
    T: Drop,
    F: Fn(&mut T, &Option<Iccid>) + Copy + Drop,
    G: Fn(&mut Row<u8>, &T) -> Result<(), NoMemory> + Copy + Drop,
> LinePart<B, Vec<T>> for ReplayPart<F, G> {
    ghost use Rattle.modem_bank.specs.Modems.{Seen};
    ghost use Rattle.modem_bank.specs.Telling.{TellsOne};
    ghost use Rattle.world_text.specs.Putting.{PutsOne};
    ghost use Rattle.world_forms.specs.Replays.{EndsReplay, IsRefused, Stops};
    ghost use Rattle.world_forms.specs.Walks.{Began, IsReadyFor, Led};
    ghost use Rattle.world_forms.specs.Starting.{began_nowhere, led_nowhere};
    ghost use Rattle.chip_port.specs.Rules.{IfTold};
    ghost use Rattle.std.proofs.Common.{refl};

    ghost ready = { λ at. F.IsAlwaysCallable at.part.tell
        × (G.IsAlwaysCallable at.part.put × IsReadyFor at.part.world (B.sees at.bench)) };

    ghost behind = { λ first now ls text. first.part.world ≡ None
        → ((now.part.tell ≡ first.part.tell) × (now.part.put ≡ first.part.put))
        × (Began now.part.world (B.sees first.bench) (B.sees now.bench) ls
        × ((view : T → Seen) → TellsOne F.Fn first.part.tell view
        → PutsOne G.Fn first.part.put view
        → Led now.part.world (map view first.modems.items) (B.sees first.bench)
        (B.sees now.bench) (map view now.modems.items) ls text)) };

    ghost stops = { λ first now ls text l stop. first.part.world ≡ None
        → IsRefused (B.sees first.bench) (B.sees now.bench) ls l stop
        × ((view : T → Seen) → TellsOne F.Fn first.part.tell view
        → PutsOne G.Fn first.part.put view
        → IfTold (B.sees first.bench) (Stops (map view first.modems.items)
        (B.sees first.bench) (B.sees now.bench) (map view now.modems.items) ls text l stop)) };

    ghost ends = { λ first now ls text end. first.part.world ≡ None → EndsReplay ls text end };

    fn handle(
        &mut self,
        alloc: Global,
        line: &[u8],
        bench: &mut B,
        modems: &mut Vec<T>,
        out: &mut Row<u8>,
    ) -> Result<(), LineStop> {
        match &mut self.world {
            Some(world) => go_on(alloc, world, line, bench, modems, self.tell, self.put, out),
            None => match begin(alloc, line, bench, modems, self.tell, out) {
                Ok(world) => {
                    self.world = Some(world);
                    Ok(())
                }
                Err(stop) => Err(stop),
            },
        }
    }

    fn finish(&self, _alloc: Global, _out: &mut Row<u8>) -> Result<(), EndStop> {
        match &self.world {
            Some(_) => Ok(()),
            None => Err(EndStop::Missing),
        }
    }

    ghost begins = { λ first fresh. (
      (refl, refl),
      (
        began_nowhere first.part.world
            (B.sees first.bench) fresh,
        λ view tells puts. led_nowhere first.part.world
            (map view first.modems.items) (B.sees first.bench) fresh,
      ),
    ) };
}
