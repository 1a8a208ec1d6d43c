ghost use Rattle.std.specs.Prelude.{◌≡◌, ◌↔◌, ◌⊎◌, ℕ, None, Some, IfOk, IfSome, MatchOption};
ghost use Rattle.card_store.specs.Looking.{HasCauseOf};
ghost use Rattle.chip_port.specs.Rules.{IfTold, Quiet};
ghost use Rattle.euicc_core.specs.Steps.{ChipSteps, HasCauseOfStep, IsInRange, IsLitOn, Steps};
ghost use Rattle.home_codec.specs.FullCards.{full_card};
ghost use Rattle.small_card.specs.Ranges.{IsCommand};
ghost use Rattle.small_card.specs.Valid.{IsValid};
ghost use Rattle.small_world.specs.Worlds.{SmallWorld};
ghost use Rattle.world_card.specs.Benches.{IsOnBench};
ghost use Rattle.world_card.specs.Boots.{Boots, HasCauseOfBoot, Reopens, of_open};
ghost use Rattle.world_card.specs.Commands.{Commanded};
ghost use Rattle.world_card.specs.Plans.{Planned};
ghost use Rattle.world_card.specs.Starts.{Starts};

use crate::ends::BootEnd;
use card_store::{Card, MakeError};
use chip_port::{Bench, Tear};
use euicc_core::{EuiccCard, OpenError, StepEnd};
use iot_bytes::NoMemory;
use profile_table::Table;
use sgp_values::Eid;
use small_card::Command;
use std::alloc::Global;
use std::marker::Model;

/// A card on a test bench. Contracts see it as its full card, or as none where it is dark.
#[derive(Debug, Drop)]
pub struct BenchCard {
    card: Option<EuiccCard>,
}

impl Model for BenchCard {
    ghost use Rattle.std.specs.Prelude.{Option};
    ghost use Rattle.small_card.specs.Cards.{FullCard};
    ghost use Rattle.world_card.specs.Held.{lit_card};

    ghost Value = { Option FullCard };

    ghost view = { λ b. lit_card b.card };
}

fn of_open(error: OpenError) -> BootEnd
    ensures { result ≡ of_open error }
{
    match error {
        OpenError::Failed => BootEnd::Lost,
        OpenError::Unrecognised => BootEnd::Foreign,
        OpenError::NoMemory => BootEnd::NoMemory,
    }
}

impl BenchCard {
    /// Drops the bench's plan and personalises a card with these profiles, no eIM and no result.
    pub fn start<B: Bench>(
        alloc: Global,
        bench: &mut B,
        eid: Eid,
        profiles: Table,
    ) -> Result<BenchCard, MakeError>
        ensures cause { HasCauseOf MakeError.Failed (B.sees bench.old) (B.sees bench.new) result }
        ensures ready { IfOk result
            (λ card. IfTold (B.sees bench.new) (IsLitOn card (B.sees bench.new))) }
        ensures starts { IfTold (B.sees bench.old)
            (Starts eid profiles result (B.sees bench.old) (B.sees bench.new)) }
    {
        bench.drop_plan(); // A plan for an earlier card.
        match EuiccCard::personalise(alloc, bench, eid, profiles) {
            Ok(card) => Ok(BenchCard { card: Some(card) }),
            Err(error) => Err(error),
        }
    }

    /// Gives the card a command. It ends the plan, unless the card is dark.
    pub fn command<B: Bench>(&mut self, alloc: Global, bench: &mut B, command: Command) -> StepEnd
        requires ready { IfTold (B.sees bench.old) (IsLitOn self.old (B.sees bench.old)) }
        ensures ready { IfTold (B.sees bench.new) (IsLitOn self.new (B.sees bench.new)) }
        ensures cause { HasCauseOfStep result (B.sees bench.old) (B.sees bench.new) }
        ensures dark { (result ≡ StepEnd.Dark) ↔ (self.old ≡ None) }
        ensures unlit { self.old ≡ None → (self.new ≡ None) × (bench.new ≡ bench.old) }
        ensures range { IsCommand command → IsInRange result }
        ensures commanded { (first : ℕ) (w : SmallWorld)
            → IsOnBench first self.old (B.sees bench.old) w → IsCommand command
            → Commanded first w command result self.new (B.sees bench.old) (B.sees bench.new) }
    {
        match self.step(alloc, bench, command) {
            StepEnd::Answered(answer) => {
                bench.drop_plan();
                StepEnd::Answered(answer)
            }
            StepEnd::Lost => {
                bench.drop_plan();
                StepEnd::Lost
            }
            StepEnd::Dark => StepEnd::Dark,
            StepEnd::NoMemory => StepEnd::NoMemory,
        }
    }

    fn step<B: Bench>(&mut self, alloc: Global, bench: &mut B, command: Command) -> StepEnd
        requires settled { IfTold (B.sees bench.old) (IsLitOn self.old (B.sees bench.old)) }
        ensures cause { HasCauseOfStep result (B.sees bench.old) (B.sees bench.new) }
        ensures dark { (result ≡ StepEnd.Dark) ↔ (self.old ≡ None) }
        ensures unlit { self.old ≡ None → (self.new ≡ None) × (bench.new ≡ bench.old) }
        ensures steps { Steps command self.old self.new result }
        ensures range { IsCommand command → IsInRange result }
        ensures settled { IfTold (B.sees bench.new) (IsLitOn self.new (B.sees bench.new)) }
        ensures chip { IfTold (B.sees bench.old)
            (ChipSteps command self.old result (B.sees bench.old) (B.sees bench.new)) }
    {
        match &mut self.card {
            Some(card) => card.step(alloc, bench, &command),
            None => StepEnd::Dark,
        }
    }

    /// A power cycle, and the answer to reset. It ends the plan.
    pub fn boot<B: Bench>(&mut self, alloc: Global, bench: &mut B) -> BootEnd
        ensures ready { IfTold (B.sees bench.new) (IsLitOn self.new (B.sees bench.new)) }
        ensures cause { HasCauseOfBoot result (B.sees bench.old) (B.sees bench.new) }
        ensures boots { (first : ℕ) (w : SmallWorld)
            → IsOnBench first self.old (B.sees bench.old) w
            → Boots first w result self.new (B.sees bench.old) (B.sees bench.new) }
    {
        self.card = None;
        match bench.power_on() {
            Ok(()) => {
                let end = self.open(alloc, bench);
                bench.drop_plan();
                end
            }
            Err(_failed) => {
                bench.drop_plan();
                BootEnd::Lost
            }
        }
    }

    // Opens the card after the power came back.
    fn open<B: Bench>(&mut self, alloc: Global, bench: &mut B) -> BootEnd
        requires { self.old ≡ None }
        ensures dark { self.new ≡ None ⊎ (result ≡ BootEnd.Booted) }
        ensures ready { IfTold (B.sees bench.new) (IsLitOn self.new (B.sees bench.new)) }
        ensures cause { HasCauseOfBoot result (B.sees bench.old) (B.sees bench.new) }
        ensures reopens { IfTold (B.sees bench.old)
            (Reopens result self.new (B.sees bench.old) (B.sees bench.new)) }
    {
        match EuiccCard::power_up(alloc, bench) {
            Ok(card) => {
                self.card = Some(card);
                BootEnd::Booted
            }
            Err(error) => of_open(error),
        }
    }

    /// Plans a cut at one of the next calls of the chip, in place of an earlier plan. For want of
    /// memory the plan stays.
    pub fn plan<B: Bench>(&self, bench: &mut B, calls: u32, tear: Tear) -> Result<(), NoMemory>
        ensures ready { IfTold (B.sees bench.old) (IsLitOn self.now (B.sees bench.old))
            → IfTold (B.sees bench.new) (IsLitOn self.now (B.sees bench.new)) }
        ensures quiet { Quiet (B.sees bench.old) (B.sees bench.new) }
        ensures planned { (first : ℕ) (w : SmallWorld)
            → IsOnBench first self.now (B.sees bench.old) w
            → Planned first w calls tear result self.now (B.sees bench.old) (B.sees bench.new) }
    {
        bench.plan_cut(calls, tear)
    }

    /// The parts of the card, none where it is dark. It takes no memory.
    pub fn card(&self) -> Option<&Card>
        ensures parts { MatchOption result (self.now ≡ None)
            (λ parts. self.now ≡ Some (full_card parts.now)) }
        ensures valid { IfSome self.now IsValid }
    {
        match &self.card {
            Some(card) => card.card(),
            None => None,
        }
    }
}
