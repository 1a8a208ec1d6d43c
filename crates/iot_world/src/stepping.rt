//! A line of a schedule, whatever it is, and the first line before all of them.

ghost use Rattle.std.specs.Prelude.{◌≡◌, ℕ, List, Option, map, IfOk, OnErr};
ghost use Rattle.card_store.specs.Looking.{HasCauseOf};
ghost use Rattle.chip_port.specs.Rules.{IfTold};
ghost use Rattle.euicc_core.specs.Steps.{IsLitOn};
ghost use Rattle.iot_schedule.specs.Ranges.{IsDevice, IsStep};
ghost use Rattle.modem_bank.specs.Modems.{Seen};
ghost use Rattle.modem_bank.specs.Telling.{KeepsOne, TellsOne};
ghost use Rattle.small_world.specs.Modems.{without_taken};
ghost use Rattle.small_world.specs.Worlds.{SmallWorld};
ghost use Rattle.world_text.specs.Putting.{PutsOne};
ghost use Rattle.iot_world.specs.Starts.{Begins};
ghost use Rattle.iot_world.specs.Steps.{Acts};
ghost use Rattle.iot_world.specs.Turns.{KeepsBy, StandsWith, Turns};

use crate::ends::Halt;
use crate::modem_lines::{attend, detach, print};
use crate::quiet_lines::{bind, join, kept, order, poll, restart, skip, up};
use crate::world::World;
use chip_port::Bench;
use iot_bytes::{NoMemory, Row};
use iot_schedule::{Device, Line};
use profile_table::Table;
use sgp_values::Iccid;
use std::alloc::Global;
use world_card::{BenchCard, MakeError};
use world_network::Network;

impl World {
    /// Drops a plan that the bench has, personalises the device's card and tells the modems, each
    /// of which `tell` tells. On refusal the modems are as before.
    ///
    /// It is [`World::start`] for crates above that are lent a list of boxes themselves.
    pub fn start_with<B: Bench, T, F: Fn(&mut T, &Option<Iccid>)>(
        alloc: Global,
        device: Device,
        bench: &mut B,
        modems: &mut Vec<T>,
        tell: F,
    ) -> Result<World, MakeError>
        requires callable { F.IsAlwaysCallable tell }
        requires device { IsDevice device }
        ensures cause { HasCauseOf MakeError.Failed (B.sees bench.old) (B.sees bench.new) result }
        ensures ready { IfOk result
            (λ world. IfTold (B.sees bench.new) (IsLitOn world.card (B.sees bench.new))) }
        ensures begins { (view : T → Seen) → TellsOne F.Fn tell view → IfTold (B.sees bench.old)
            (Begins device (map view modems.old.items) result (B.sees bench.old)
            (B.sees bench.new) (map view modems.new.items)) }
        ensures kept { (shown : T → Option (List ℕ)) → KeepsOne F.Fn tell shown
            → IfOk result (λ world. KeepsBy shown world.card modems.old.items modems.new.items) }
        ensures refused { OnErr result (modems.new.items ≡ modems.old.items) }
    {
        let eid = device.eid;
        let Ok(profiles) = Table::of(device.profiles) else {
            return Err(MakeError::NoMemory);
        };
        match BenchCard::start(alloc, bench, eid, profiles) {
            Ok(card) => {
                attend(&card, modems, tell);
                Ok(World::of(Network::new(alloc, eid), card))
            }
            Err(error) => Err(error),
        }
    }

    // What a line does, before the modems are told.
    fn act<B: Bench, T: Drop, G: Fn(&mut Row<u8>, &T) -> Result<(), NoMemory>>(
        &mut self,
        alloc: Global,
        line: Line,
        bench: &mut B,
        modems: &mut Vec<T>,
        put: G,
        out: &mut Row<u8>,
    ) -> Result<(), Halt>
        requires callable { G.IsAlwaysCallable put }
        requires ready { IfTold (B.sees bench.old) (IsLitOn self.old.card (B.sees bench.old)) }
        requires line { IsStep line }
        ensures ready { IfTold (B.sees bench.new) (IsLitOn self.new.card (B.sees bench.new)) }
        ensures left { modems.new.items ≡ without_taken line modems.old.items }
        ensures acts { (first : ℕ) (w : SmallWorld) (view : T → Seen) → PutsOne G.Fn put view
            → StandsWith first self.old (B.sees bench.old) (map view modems.old.items) w
            → Acts first line w result self.new (B.sees bench.old) (B.sees bench.new) out.old
            out.new }
    {
        match line {
            Line::Eim { id } => join(&mut self.network, alloc, id, out),
            Line::Initial { id, address, key } => self.initial(alloc, bench, id, address, key, out),
            Line::Bind {
                id,
                association,
                last,
            } => bind(&mut self.network, id, association, last, out),
            Line::Order { id, body } => order(&mut self.network, alloc, id, body, out),
            Line::Skip { id } => skip(&mut self.network, id, out),
            Line::Poll { id } => poll(&mut self.network, alloc, id, out),
            Line::Up { pick } => up(&mut self.network, alloc, pick, out),
            Line::Down { pick, good } => self.down(alloc, bench, pick, good, out),
            Line::Load { good, bytes } => self.load(alloc, bench, good, bytes, out),
            Line::Push => self.push(alloc, bench, out),
            Line::Probe { passed } => self.probe(alloc, bench, passed, out),
            Line::Rollback => self.roll_back(alloc, bench, out),
            Line::Restart => restart(&mut self.network, out),
            Line::Cut { calls, tear } => self.cut(bench, calls, tear, out),
            Line::Boot => self.boot(alloc, bench, out),
            Line::Show => self.show(out),
            Line::Kept { id } => kept(&self.network, id, out),
            Line::Detach { at } => detach(modems, at, out),
            Line::Modems => print(modems.as_slice(), put, out),
        }
    }

    /// One line: what it does, its text behind what `out` has, and at its end the modems are told
    /// by a lit card. `tell` tells one modem, and `put` appends what one shows and counts. A line
    /// that halts appends no whole text, and the world isn't stepped again.
    ///
    /// It is [`World::step`] for crates above that are lent a list of boxes themselves.
    pub fn step_with<
        B: Bench,
        T: Drop,
        F: Fn(&mut T, &Option<Iccid>),
        G: Fn(&mut Row<u8>, &T) -> Result<(), NoMemory>,
    >(
        &mut self,
        alloc: Global,
        line: Line,
        bench: &mut B,
        modems: &mut Vec<T>,
        tell: F,
        put: G,
        out: &mut Row<u8>,
    ) -> Result<(), Halt>
        requires tells { F.IsAlwaysCallable tell }
        requires puts { G.IsAlwaysCallable put }
        requires ready { IfTold (B.sees bench.old) (IsLitOn self.old.card (B.sees bench.old)) }
        requires line { IsStep line }
        ensures ready { IfTold (B.sees bench.new) (IsLitOn self.new.card (B.sees bench.new)) }
        ensures turns { (first : ℕ) (w : SmallWorld) (view : T → Seen) → TellsOne F.Fn tell view
            → PutsOne G.Fn put view
            → StandsWith first self.old (B.sees bench.old) (map view modems.old.items) w
            → Turns first line w result self.new (B.sees bench.old) (B.sees bench.new)
            (map view modems.new.items) out.old out.new }
        ensures kept { (shown : T → Option (List ℕ)) → KeepsOne F.Fn tell shown
            → IfOk result (λ _. KeepsBy shown self.new.card (without_taken line modems.old.items)
            modems.new.items) }
        ensures halted { OnErr result (modems.new.items ≡ without_taken line modems.old.items) }
    {
        match self.act(alloc, line, bench, modems, put, out) {
            Ok(()) => {
                attend(&self.card, modems, tell);
                Ok(())
            }
            Err(halt) => Err(halt),
        }
    }
}
