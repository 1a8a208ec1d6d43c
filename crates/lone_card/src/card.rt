//! The card as a part of a run: what stands on its chip, or none until its first frame makes one.

ghost use Rattle.std.specs.Prelude.{◌≡◌, Some, None, Ok, IfOk, OnOk};
ghost use Rattle.chip_port.specs.Rules.{IfTold};
ghost use Rattle.small_card.specs.Ranges.{IsAnswer, IsCommand};
ghost use Rattle.small_card.specs.declared.types.Command.TheVariants as command;
ghost use Rattle.card_store.specs.Looking.{HasCauseOf};
ghost use Rattle.euicc_core.specs.Steps.{IsLitOn};
ghost use Rattle.es10_codec.specs.Reading.{command_at};
ghost use Rattle.run_loop.specs.Parts.{Answers};
ghost use Rattle.lone_card.specs.declared.card.CardPart.{CardPart};
ghost use Rattle.lone_card.specs.Walks.{LedTo, StoppedAt};
ghost use Rattle.lone_card.specs.Answering.{BegunBy, of_step, Puts};
ghost use Rattle.lone_card.specs.Benches.{IsReady, Makes};

use chip_port::Chip;
use es10_codec::{read_command, write_answer};
use euicc_core::{EuiccCard, MakeError, StepEnd};
use iot_bytes::{NoMemory, ReadError, Row};
use profile_table::Table;
use run_loop::{Part, PartStop};
use sgp_values::Eid;
use small_card::{Answer, Command, Profile};
use std::alloc::Global;

/// A card that answers frames on its chip. There may be none until the first frame makes one.
#[derive(Drop)]
pub struct CardPart {
    card: Option<EuiccCard>,
}

impl CardPart {
    /// The card that stands on its chip.
    pub fn with(card: EuiccCard) -> CardPart
        ensures { result.card ≡ Some card }
    {
        CardPart { card: Some(card) }
    }

    /// No card yet.
    pub fn none() -> CardPart
        ensures { result.card ≡ None }
    {
        CardPart { card: None }
    }
}

// Makes a card with this EID and these profiles.
fn make<C: Chip>(
    alloc: Global,
    chip: &mut C,
    eid: Eid,
    profiles: Row<Profile>,
) -> Result<EuiccCard, PartStop>
    requires { IsCommand (command.Personalise eid profiles) }
    ensures cause { HasCauseOf PartStop.ChipFault (C.sees chip.old) (C.sees chip.new) result }
    ensures begun { BegunBy (Some (command.Personalise eid profiles)) result }
    ensures settled { IfOk result
        (λ card. IfTold (C.sees chip.new) (IsLitOn card (C.sees chip.new))) }
    ensures chip { IfTold (C.sees chip.old)
        (Makes (Some (command.Personalise eid profiles)) result (C.sees chip.old)
        (C.sees chip.new)) }
{
    let Ok(table) = Table::of(profiles) else {
        return Err(PartStop::Unrecognised);
    };
    match EuiccCard::personalise(alloc, chip, eid, table) {
        Ok(card) => Ok(card),
        Err(MakeError::Failed) => Err(PartStop::ChipFault),
        Err(MakeError::NoMemory) => Err(PartStop::NoMemory),
    }
}

// Makes the card that a first command asks for.
fn begin<C: Chip>(alloc: Global, chip: &mut C, command: Command) -> Result<EuiccCard, PartStop>
    requires { IsCommand command }
    ensures cause { HasCauseOf PartStop.ChipFault (C.sees chip.old) (C.sees chip.new) result }
    ensures begun { BegunBy (Some command) result }
    ensures settled { IfOk result
        (λ card. IfTold (C.sees chip.new) (IsLitOn card (C.sees chip.new))) }
    ensures chip { IfTold (C.sees chip.old)
        (Makes (Some command) result (C.sees chip.old) (C.sees chip.new)) }
{
    match command {
        Command::Personalise { eid, profiles } => make(alloc, chip, eid, profiles),
        Command::Load { good: _, bytes: _ } => Err(PartStop::Unrecognised),
        Command::Initial {
            id: _,
            address: _,
            key: _,
        } => Err(PartStop::Unrecognised),
        Command::Remove { seq: _ } => Err(PartStop::Unrecognised),
        Command::Rollback | Command::Results | Command::Eims => Err(PartStop::Unrecognised),
    }
}

// Makes the card that a first frame asks for.
fn begin_by_frame<C: Chip>(
    alloc: Global,
    chip: &mut C,
    octets: &[u8],
) -> Result<EuiccCard, PartStop>
    ensures cause { HasCauseOf PartStop.ChipFault (C.sees chip.old) (C.sees chip.new) result }
    ensures begun { BegunBy (command_at octets.now) result }
    ensures settled { IfOk result
        (λ card. IfTold (C.sees chip.new) (IsLitOn card (C.sees chip.new))) }
    ensures chip { IfTold (C.sees chip.old)
        (Makes (command_at octets.now) result (C.sees chip.old) (C.sees chip.new)) }
{
    match read_command(alloc, octets) {
        Ok(command) => begin(alloc, chip, command),
        Err(ReadError::Malformed) => Err(PartStop::Unrecognised),
        Err(ReadError::NoMemory) => Err(PartStop::NoMemory),
    }
}

// Appends an answer.
fn put(answer: &Answer, out: &mut Row<u8>) -> Result<(), PartStop>
    requires { IsAnswer answer.now }
    ensures { Puts (Ok answer.now) out.old out.new result }
{
    match write_answer(answer, out) {
        Ok(()) => Ok(()),
        Err(NoMemory) => Err(PartStop::NoMemory),
    }
}

// Appends the answer of a step, or tells why it has none.
fn put_end(end: &StepEnd, out: &mut Row<u8>) -> Result<(), PartStop>
    requires { IfOk (of_step end.now) IsAnswer }
    ensures { Puts (of_step end.now) out.old out.new result }
{
    match end {
        StepEnd::Answered(answer) => put(answer, out),
        StepEnd::Lost | StepEnd::Dark => Err(PartStop::ChipFault),
        StepEnd::NoMemory => Err(PartStop::NoMemory),
    }
}

impl CardPart {
    // Answers a first frame by the card that it makes.
    fn answer_first<C: Chip>(
        &mut self,
        alloc: Global,
        chip: &mut C,
        octets: &[u8],
        out: &mut Row<u8>,
    ) -> Result<(), PartStop>
        requires { self.old.card ≡ None }
        ensures answers { Answers
            (λ (first : CardPart × C) now fs text. LedTo first.0.card (C.sees first.1)
            now.0.card (C.sees now.1) fs text)
            (λ first now fs text f stop. StoppedAt first.0.card (C.sees first.1) (C.sees now.1)
            fs text f stop)
            (self.old, chip.old) (self.new, chip.new) octets.now out.old out.new result }
        ensures ready { OnOk result (IsReady self.new.card (C.sees chip.new)) }
    {
        match begin_by_frame(alloc, chip, octets) {
            Ok(begun) => {
                self.card = Some(begun);
                put(&Answer::Personalised, out)
            }
            Err(stop) => Err(stop),
        }
    }
}

impl<C: Chip> Part<C> for CardPart {
    ghost use Rattle.lone_card.specs.Benches.{IsReady};
    ghost use Rattle.lone_card.specs.Walks.{LedTo, StoppedAt};
    ghost use Rattle.lone_card.specs.Starting.{led_nowhere};

    ghost ready = { λ at. IsReady at.0.card (C.sees at.1) };

    ghost behind = { λ first now fs text.
        LedTo first.0.card (C.sees first.1) now.0.card (C.sees now.1) fs text };

    ghost stops = { λ first now fs text f stop.
        StoppedAt first.0.card (C.sees first.1) (C.sees now.1) fs text f stop };

    fn answer(
        &mut self,
        alloc: Global,
        outside: &mut C,
        octets: &[u8],
        out: &mut Row<u8>,
    ) -> Result<(), PartStop> {
        match &mut self.card {
            None => self.answer_first(alloc, outside, octets, out),
            Some(card) => match read_command(alloc, octets) {
                Ok(command) => put_end(&card.step(alloc, outside, &command), out),
                Err(ReadError::Malformed) => put(&Answer::Malformed, out),
                Err(ReadError::NoMemory) => Err(PartStop::NoMemory),
            },
        }
    }

    ghost begins = { λ first. led_nowhere first.0.card (C.sees first.1) };
}
