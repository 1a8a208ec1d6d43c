ghost use Rattle.std.specs.Prelude.{IfOk};
ghost use Rattle.small_card.specs.Ranges.{IsAnswer, IsCommand};
ghost use Rattle.small_card.specs.Valid.{IsValid};
ghost use Rattle.home_codec.specs.FullCards.{full_card};
ghost use Rattle.card_steps.specs.Steps.{Turns, answer_of, left_by};

use crate::listing::{list_eims, list_results};
use crate::loading::load;
use crate::turns::Turn;
use crate::units::{associate, remove, roll_back};
use home_codec::Card;
use iot_bytes::NoMemory;
use small_card::{Answer, Command};
use std::alloc::Global;

// The turn of a command.
fn carry_out(alloc: Global, card: &Card, command: &Command) -> Result<Turn, NoMemory>
    requires valid { IsValid (full_card card.now) }
    ensures turns { IfOk result (λ end. Turns command.now (full_card card.now) end) }
{
    match command {
        Command::Personalise {
            eid: _,
            profiles: _,
        } => Ok(Turn::Same(Answer::AlreadyPersonal)),
        Command::Load { good, bytes } => load(alloc, card, *good, bytes.as_slice()),
        Command::Rollback => roll_back(alloc, card),
        Command::Remove { seq } => remove(alloc, card, *seq),
        Command::Results => list_results(alloc, card),
        Command::Eims => list_eims(alloc, card),
        Command::Initial { id, address, key } => associate(alloc, card, *id, *address, *key),
    }
}

/// Carries out a command on a card that is only read: it stays, or another card takes its place.
///
/// A refused command and one that lists leave the card; every other one is one unit of its history.
///
/// # Errors
/// `NoMemory`, and nothing was done.
pub fn turn(alloc: Global, card: &Card, command: &Command) -> Result<Turn, NoMemory>
    requires valid { IsValid (full_card card.now) }
    ensures turns { IfOk result (λ end. Turns command.now (full_card card.now) end) }
    ensures valid { IfOk result (λ end. IsValid (left_by (full_card card.now) end)) }
    ensures range { IsCommand command.now → IfOk result (λ end. IsAnswer (answer_of end)) }
{
    let end = carry_out(alloc, card, command)?;
    Ok(end)
}
