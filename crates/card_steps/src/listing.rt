ghost use Rattle.std.specs.Prelude.{IfOk};
ghost use Rattle.small_card.specs.declared.types.Command.TheVariants as command;
ghost use Rattle.home_codec.specs.FullCards.{full_card};
ghost use Rattle.card_steps.specs.Steps.{Turns};

use crate::turns::Turn;
use home_codec::Card;
use iot_bytes::NoMemory;
use small_card::Answer;
use std::alloc::Global;

/// Answers with the pending results.
pub(crate) fn list_results(alloc: Global, card: &Card) -> Result<Turn, NoMemory>
    ensures turns { IfOk result (λ end. Turns command.Results (full_card card.now) end) }
{
    let rows = card.store.list(alloc)?;
    Ok(Turn::Same(Answer::Results(rows)))
}

/// Answers with the eIMs, without their keys.
pub(crate) fn list_eims(alloc: Global, card: &Card) -> Result<Turn, NoMemory>
    ensures turns { IfOk result (λ end. Turns command.Eims (full_card card.now) end) }
{
    let rows = card.eims.list(alloc)?;
    Ok(Turn::Same(Answer::Eims(rows)))
}
