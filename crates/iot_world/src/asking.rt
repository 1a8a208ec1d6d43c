//! The assistant gives the card a command, and hears its answer.

ghost use Rattle.std.specs.Prelude.{◌≡◌, ◌<◌, ℕ, IfOk};
ghost use Rattle.chip_port.specs.Rules.{IfTold};
ghost use Rattle.euicc_core.specs.Steps.{IsLitOn};
ghost use Rattle.small_card.specs.Ranges.{IsAnswer, IsCommand};
ghost use Rattle.small_card.specs.declared.types.Command.{Command};
ghost use Rattle.small_world.specs.Worlds.{SmallWorld};
ghost use Rattle.world_network.specs.Networks.{IsNetwork};
ghost use Rattle.world_text.specs.Removing.{removed_by};
ghost use Rattle.iot_world.specs.Asking.{AreFew, Asks, Says, SaysSilent, Tells};
ghost use Rattle.iot_world.specs.Worlds.{StandsFor};

use crate::ends::{Halt, halting, of_send};
use crate::world::World;
use chip_port::Bench;
use iot_bytes::{NoMemory, Row};
use small_card::{Answer, Command};
use std::alloc::Global;
use world_card::StepEnd;
use world_text::put_said;

/// How a card took a command of the assistant.
#[derive(Clone, Copy, Debug, PartialEq, Eq)]
pub(crate) enum Asked {
    /// It answered, and the assistant sent so many messages for it, from this place on.
    Answered { first: usize, sent: usize },
    /// The step was lost, or the card is dark; the text says which.
    Silent,
}

/// The number of a result that the command removes.
pub(crate) fn removed_by(command: &Command) -> Option<u32>
    ensures { result ≡ removed_by command.now }
{
    match command {
        Command::Remove { seq } => Some(*seq),
        Command::Personalise {
            eid: _,
            profiles: _,
        } => None,
        Command::Load { good: _, bytes: _ } => None,
        Command::Initial {
            id: _,
            address: _,
            key: _,
        } => None,
        Command::Rollback | Command::Results | Command::Eims => None,
    }
}

/// Appends a word, or halts.
#[tactic(auto, using(crate::proofs::Halting::halted))]
pub(crate) fn put_word(out: &mut Row<u8>, word: &[u8]) -> Result<(), Halt>
    ensures { Says word.now out.old out.new result }
{
    halting(out.append(word))
}

// The card said nothing: this is printed.
fn silent(out: &mut Row<u8>, word: &[u8]) -> Result<Asked, Halt>
    ensures { SaysSilent word.now out.old out.new result }
{
    match out.append(word) {
        Ok(()) => Ok(Asked::Silent),
        Err(NoMemory) => Err(Halt::NoMemory),
    }
}

impl World {
    /// The assistant gives the card a command, and hears its answer. What the card says is printed.
    pub(crate) fn ask<B: Bench>(
        &mut self,
        alloc: Global,
        bench: &mut B,
        command: Command,
        out: &mut Row<u8>,
    ) -> Result<Asked, Halt>
        requires ready { IfTold (B.sees bench.old) (IsLitOn self.old.card (B.sees bench.old)) }
        requires range { IsCommand command }
        ensures ready { IfTold (B.sees bench.new) (IsLitOn self.new.card (B.sees bench.new)) }
        ensures few { IfOk result AreFew }
        ensures asked { (first : ℕ) (w : SmallWorld)
            → StandsFor first self.old (B.sees bench.old) w
            → Asks first w command result self.new (B.sees bench.old) (B.sees bench.new) out.old
            out.new }
    {
        let removed = removed_by(&command);
        match self.card.command(alloc, bench, command) {
            StepEnd::Answered(answer) => self.tell(alloc, removed, answer, out),
            StepEnd::Lost => silent(out, b"lost"),
            StepEnd::Dark => silent(out, b"off"),
            StepEnd::NoMemory => Err(Halt::NoMemory),
        }
    }

    // Prints the card's answer, and hands it to the assistant.
    fn tell(
        &mut self,
        alloc: Global,
        removed: Option<u32>,
        answer: Answer,
        out: &mut Row<u8>,
    ) -> Result<Asked, Halt>
        requires { IsAnswer answer }
        ensures card { self.new.card ≡ self.old.card }
        ensures few { IfOk result AreFew }
        ensures told { (c : Command) (w : SmallWorld) → removed ≡ removed_by c
            → IsNetwork self.old.network w
            → Tells w c answer result self.new.network out.old out.new }
    {
        if put_said(out, removed, &answer).is_err() {
            return Err(Halt::NoMemory);
        }
        let first = self.network.sent();
        match self.network.answered(alloc, answer) {
            Ok(()) => {
                let sent = self.network.sent().saturating_sub(first);
                Ok(Asked::Answered { first, sent })
            }
            Err(end) => Err(of_send(end)),
        }
    }
}
