//! The start and the step of a world over a list of boxed modems.

ghost use Rattle.std.specs.Prelude.{◌≡◌, ◌++◌, ℕ, IfOk, OnErr, OnOk, true};
ghost use Rattle.std.specs.Prelude.{length, take};
ghost use Rattle.card_store.specs.Looking.{HasCauseOf};
ghost use Rattle.chip_port.specs.Rules.{IfTold};
ghost use Rattle.euicc_core.specs.Steps.{IsLitOn};
ghost use Rattle.iot_schedule.specs.Ranges.{IsDevice, IsStep};
ghost use Rattle.modem_bank.specs.Modems.{is_shown, seen, told_one};
ghost use Rattle.small_world.specs.Modems.{without_taken};
ghost use Rattle.small_world.specs.Texts.{modem_entry};
ghost use Rattle.small_world.specs.Worlds.{SmallWorld};
ghost use Rattle.iot_world.specs.Starts.{Begins};
ghost use Rattle.iot_world.specs.Turns.{KeepsBy, StandsWith, Turns};

use crate::ends::Halt;
use crate::world::World;
use chip_port::Bench;
use iot_bytes::{NoMemory, Row};
use iot_schedule::{Device, Line};
use modem_bank::{Modem, tell_one};
use sgp_values::Iccid;
use std::alloc::Global;
use world_card::MakeError;
use world_text::put_modem;

impl World {
    /// Drops a plan that the bench has, personalises the device's card and tells the modems. On
    /// refusal the modems are as before.
    pub fn start<B: Bench>(
        alloc: Global,
        device: Device,
        bench: &mut B,
        modems: &mut Vec<Box<dyn Modem>>,
    ) -> Result<World, MakeError>
        requires { IsDevice device }
        ensures cause { HasCauseOf MakeError.Failed (B.sees bench.old) (B.sees bench.new) result }
        ensures ready { IfOk result
            (λ world. IfTold (B.sees bench.new) (IsLitOn world.card (B.sees bench.new))) }
        ensures begins { IfTold (B.sees bench.old)
            (Begins device (seen shown_iccid refresh_count modems.old.items) result
            (B.sees bench.old) (B.sees bench.new)
            (seen shown_iccid refresh_count modems.new.items)) }
        ensures kept { IfOk result
            (λ world. KeepsBy shown_iccid world.card modems.old.items modems.new.items) }
        ensures refused { OnErr result (modems.new.items ≡ modems.old.items) }
    {
        World::start_with(
            alloc,
            device,
            bench,
            modems,
            |modem: &mut Box<dyn Modem>, now: &Option<Iccid>|
                ensures seen { (shown_iccid modem.new, refresh_count modem.new)
                    ≡ told_one now.now (shown_iccid modem.old, refresh_count modem.old) }
                ensures kept { is_shown (shown_iccid modem.old) now.now ≡ true
                    → modem.new ≡ modem.old }
            { tell_one(&mut **modem, now) },
        )
    }

    /// One line: what it does, its text behind what `out` has, and at its end the modems are told
    /// by a lit card. A line that halts appends no whole text, and the world isn't stepped again.
    pub fn step<B: Bench>(
        &mut self,
        alloc: Global,
        line: Line,
        bench: &mut B,
        modems: &mut Vec<Box<dyn Modem>>,
        out: &mut Row<u8>,
    ) -> Result<(), Halt>
        requires ready { IfTold (B.sees bench.old) (IsLitOn self.old.card (B.sees bench.old)) }
        requires line { IsStep line }
        ensures ready { IfTold (B.sees bench.new) (IsLitOn self.new.card (B.sees bench.new)) }
        ensures turns { (first : ℕ) (w : SmallWorld)
            → StandsWith first self.old (B.sees bench.old)
            (seen shown_iccid refresh_count modems.old.items) w
            → Turns first line w result self.new (B.sees bench.old) (B.sees bench.new)
            (seen shown_iccid refresh_count modems.new.items) out.old out.new }
        ensures kept { IfOk result (λ _. KeepsBy shown_iccid self.new.card
            (without_taken line modems.old.items) modems.new.items) }
        ensures halted { OnErr result (modems.new.items ≡ without_taken line modems.old.items) }
    {
        self.step_with(
            alloc,
            line,
            bench,
            modems,
            |modem: &mut Box<dyn Modem>, now: &Option<Iccid>|
                ensures seen { (shown_iccid modem.new, refresh_count modem.new)
                    ≡ told_one now.now (shown_iccid modem.old, refresh_count modem.old) }
                ensures kept { is_shown (shown_iccid modem.old) now.now ≡ true
                    → modem.new ≡ modem.old }
            { tell_one(&mut **modem, now) },
            |out: &mut Row<u8>, modem: &Box<dyn Modem>| -> Result<(), NoMemory>
                ensures ok { OnOk result (out.new
                    ≡ out.old ++ modem_entry (shown_iccid modem.now, refresh_count modem.now)) }
                ensures err { OnErr result (take (length out.old) out.new ≡ out.old) }
            { put_modem(out, &modem.shows(), modem.refreshes()) },
            out,
        )
    }
}
