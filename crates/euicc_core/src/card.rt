//! The card.

ghost use Rattle.std.specs.Prelude.{◌≡◌, ◌≤◌, ◌↔◌, None, Some, IfOk, MatchOption, IfSome};
ghost use Rattle.chip_port.specs.Rules.{IfTold};
ghost use Rattle.small_card.specs.Fresh.{fresh};
ghost use Rattle.small_card.specs.Ranges.{IsCommand};
ghost use Rattle.small_card.specs.Valid.{IsValid};
ghost use Rattle.home_codec.specs.FullCards.{full_card};
ghost use Rattle.card_store.specs.Looking.{HasCauseOf};
ghost use Rattle.euicc_core.specs.Steps.{IsLitOn, Steps, HasCauseOfStep, ChipSteps, IsInRange};
ghost use Rattle.euicc_core.specs.Closing.{end_of_failure, left_by_failure};
ghost use Rattle.euicc_core.specs.Openings.{Opens, Personalises, of_load};
ghost use Rattle.euicc_core.specs.Settling.{IfLit, HasCauseOfSettle, Costs, Cycles, Recognises};
ghost use Rattle.euicc_core.specs.Settling.{StandsForSome, Returns};

use crate::answering::{answer_same, unit};
use crate::ends::{OpenError, SettleEnd, StepEnd};
use card_steps::{Turn, turn};
use card_store::{Card, LoadEnd, MakeError, StageError, format, load};
use chip_port::{Bench, Chip};
use iot_bytes::NoMemory;
use profile_table::Table;
use sgp_values::Eid;
use small_card::Command;
use std::alloc::Global;
use std::marker::Model;

/// A card that was personalised or powered up. It is lit until a call of its chip fails in a step,
/// and dark from then on. Contracts see it as its full card, which is valid, or as none.
#[derive(Debug, Drop)]
pub struct EuiccCard {
    card: Option<Card>,
}

impl Model for EuiccCard {
    ghost use Rattle.std.specs.Prelude.{Option, option_map, IfSome};
    ghost use Rattle.small_card.specs.Cards.{FullCard};
    ghost use Rattle.small_card.specs.Valid.{IsValid};

    ghost Value = { Option FullCard };

    ghost use Rattle.home_codec.specs.FullCards.{full_card};

    ghost view = { λ e. option_map full_card e.card };

    ghost invariant = { λ e. IfSome e.card (λ card. IsValid (full_card card)) };
}

fn of_load(end: LoadEnd) -> OpenError
    ensures { result ≡ of_load end }
{
    match end {
        LoadEnd::Failed => OpenError::Failed,
        LoadEnd::Unrecognised => OpenError::Unrecognised,
        LoadEnd::NoMemory => OpenError::NoMemory,
    }
}

impl EuiccCard {
    /// Makes a card with these profiles, no eIM and no result, whatever stood on the chip. The
    /// answer is the last call of the chip. All memory is taken before the first call.
    ///
    /// A cut on the way leaves what stood there but for its magic, no card, or the new one.
    pub fn personalise<C: Chip>(
        alloc: Global,
        chip: &mut C,
        eid: Eid,
        profiles: Table,
    ) -> Result<EuiccCard, MakeError>
        ensures cause { HasCauseOf MakeError.Failed (C.sees chip.old) (C.sees chip.new) result }
        ensures fresh { IfOk result (λ card. card ≡ Some (fresh eid profiles)) }
        ensures settled { IfOk result
            (λ card. IfTold (C.sees chip.new) (IsLitOn card (C.sees chip.new))) }
        ensures chip { IfTold (C.sees chip.old)
            (Personalises (fresh eid profiles) result (C.sees chip.old) (C.sees chip.new)) }
    {
        match format(alloc, chip, eid, profiles) {
            Ok(card) => match chip.answer() {
                Ok(()) => Ok(EuiccCard { card: Some(card) }),
                Err(_failed) => Err(MakeError::Failed),
            },
            Err(error) => Err(error),
        }
    }

    /// Recovers the chip, reads the card that stands on it, and answers to reset as the last call
    /// of the chip.
    ///
    /// It may itself be cut, any number of times: what a cut leaves still stands for the card.
    ///
    /// # Errors
    /// `Unrecognised` where the chip stands for no card.
    pub fn power_up<C: Chip>(alloc: Global, chip: &mut C) -> Result<EuiccCard, OpenError>
        ensures cause { HasCauseOf OpenError.Failed (C.sees chip.old) (C.sees chip.new) result }
        ensures lit { IfOk result (λ card. MatchOption card ⊥ (λ parts. IsValid parts)) }
        ensures settled { IfOk result
            (λ card. IfTold (C.sees chip.new) (IsLitOn card (C.sees chip.new))) }
        ensures chip { IfTold (C.sees chip.old)
            (Opens result (C.sees chip.old) (C.sees chip.new)) }
    {
        match load(alloc, chip) {
            Ok(card) => match chip.answer() {
                Ok(()) => Ok(EuiccCard { card: Some(card) }),
                Err(_failed) => Err(OpenError::Failed),
            },
            Err(end) => Err(of_load(end)),
        }
    }

    /// Gives a bench its power back and powers the card up. After a fault it tries again, with a
    /// new power cycle, so many times in all.
    ///
    /// It may begin on a chip that is cut, and under a plan.
    pub fn settle<B: Bench>(alloc: Global, bench: &mut B, tries: u32) -> SettleEnd
        requires { 1 ≤ tries }
        ensures cause { HasCauseOfSettle tries result (B.sees bench.old) (B.sees bench.new) }
        ensures lit { IfLit result (λ card. MatchOption card ⊥ (λ parts. IsValid parts)) }
        ensures settled { IfLit result
            (λ card. IfTold (B.sees bench.new) (IsLitOn card (B.sees bench.new))) }
        ensures cost { IfTold (B.sees bench.old)
            (Costs tries result (B.sees bench.old).tally (B.sees bench.new).tally) }
        ensures cycles { IfTold (B.sees bench.old)
            (Cycles tries result (B.sees bench.old) (B.sees bench.new)) }
        ensures recognised { IfTold (B.sees bench.old)
            (Recognises result (B.sees bench.old) (B.sees bench.new)) }
        ensures returned { IfTold (B.sees bench.old) (StandsForSome (B.sees bench.old)
            → Returns result (B.sees bench.old) (B.sees bench.new)) }
    {
        for _done in 0..tries {
            match EuiccCard::power_cycle(alloc, bench) {
                SettleEnd::Spent => {}
                end => return end,
            }
        }
        SettleEnd::Spent
    }

    // One try: a power cycle, and the answer to reset.
    fn power_cycle<B: Bench>(alloc: Global, bench: &mut B) -> SettleEnd
        ensures cause { HasCauseOfSettle 1 result (B.sees bench.old) (B.sees bench.new) }
        ensures lit { IfLit result (λ card. MatchOption card ⊥ (λ parts. IsValid parts)) }
        ensures settled { IfLit result
            (λ card. IfTold (B.sees bench.new) (IsLitOn card (B.sees bench.new))) }
        ensures cost { IfTold (B.sees bench.old)
            (Costs 1 result (B.sees bench.old).tally (B.sees bench.new).tally) }
        ensures cycles { IfTold (B.sees bench.old)
            (Cycles 1 result (B.sees bench.old) (B.sees bench.new)) }
    {
        match bench.power_on() {
            Ok(()) => match EuiccCard::power_up(alloc, bench) {
                Ok(card) => SettleEnd::Lit(card),
                Err(OpenError::Failed) => SettleEnd::Spent,
                Err(OpenError::Unrecognised) => SettleEnd::Unrecognised,
                Err(OpenError::NoMemory) => SettleEnd::NoMemory,
            },
            Err(_failed) => SettleEnd::Spent,
        }
    }

    /// Carries out a command, writes what it changes as one unit, and answers it as the last call
    /// of the chip. A refused command and a listing make no other call. All memory of a unit and of
    /// its answer is taken before anything is written.
    pub fn step<C: Chip>(&mut self, alloc: Global, chip: &mut C, command: &Command) -> StepEnd
        requires settled { IfTold (C.sees chip.old) (IsLitOn self.old (C.sees chip.old)) }
        ensures cause { HasCauseOfStep result (C.sees chip.old) (C.sees chip.new) }
        ensures dark { (result ≡ StepEnd.Dark) ↔ (self.old ≡ None) }
        ensures unlit { self.old ≡ None → (self.new ≡ None) × (chip.new ≡ chip.old) }
        ensures steps { Steps command.now self.old self.new result }
        ensures range { IsCommand command.now → IsInRange result }
        ensures settled { IfTold (C.sees chip.new) (IsLitOn self.new (C.sees chip.new)) }
        ensures chip { IfTold (C.sees chip.old)
            (ChipSteps command.now self.old result (C.sees chip.old) (C.sees chip.new)) }
    {
        let Some(card) = &self.card else {
            return StepEnd::Dark;
        };
        match turn(alloc, card, command) {
            Ok(Turn::Same(answer)) => match answer_same(chip) {
                Ok(()) => StepEnd::Answered(answer),
                Err(error) => self.fail(error),
            },
            Ok(Turn::Changed(new, answer)) => match unit(alloc, chip, card, new) {
                Ok(held) => {
                    self.card = Some(held);
                    StepEnd::Answered(answer)
                }
                Err(error) => self.fail(error),
            },
            Err(NoMemory) => StepEnd::NoMemory,
        }
    }

    // Ends a step that failed. After a fault of the chip the card is dark.
    fn fail(&mut self, error: StageError) -> StepEnd
        ensures card { self.new ≡ left_by_failure self.old error }
        ensures end { result ≡ end_of_failure error }
    {
        match error {
            StageError::Failed => {
                self.card = None;
                StepEnd::Lost
            }
            StageError::NoMemory => StepEnd::NoMemory,
        }
    }

    /// The parts of the card, none where it is dark. It takes no memory.
    pub fn card(&self) -> Option<&Card>
        ensures parts { MatchOption result (self.now ≡ None)
            (λ parts. self.now ≡ Some (full_card parts.now)) }
        ensures valid { IfSome self.now IsValid }
    {
        self.card.as_ref()
    }
}
