//! A run of the card: it is opened, and then answers frames.

ghost use Rattle.std.specs.Prelude.{◌≡◌, ◌≢◌, ◌⊎◌, ◌++◌, ℕ, List, Some};
ghost use Rattle.iot_bytes.specs.Causes.{Rose};
ghost use Rattle.run_loop.specs.Edges.{edge, HasCauses};
ghost use Rattle.run_loop.specs.Frames.{framed};
ghost use Rattle.lone_card.specs.Runs.{Opens, Ran, Served, HasFaults};
ghost use Rattle.lone_card.specs.Ends.{AreHandled, StopsWith};

use crate::card::CardPart;
use chip_port::Chip;
use euicc_core::{EuiccCard, OpenError};
use iot_bytes::{Sink, Source};
use run_loop::{PartStop, RunEnd, end_unopened, serve};
use std::alloc::Global;

// The card that stands on a chip, or that there is none; or why it can't be opened.
fn open<C: Chip>(alloc: Global, chip: &mut C) -> Result<CardPart, PartStop>
    ensures { Opens result (C.sees chip.old) (C.sees chip.new) }
{
    match EuiccCard::power_up(alloc, chip) {
        Ok(card) => Ok(CardPart::with(card)),
        Err(OpenError::Unrecognised) => Ok(CardPart::none()),
        Err(OpenError::Failed) => Err(PartStop::ChipFault),
        Err(OpenError::NoMemory) => Err(PartStop::NoMemory),
    }
}

// Opens the card, and has it answer the frames of a source.
fn open_and_serve<S: Source, K: Sink, C: Chip>(
    alloc: Global,
    source: &mut S,
    sink: &mut K,
    chip: &mut C,
) -> RunEnd
    ensures { Ran result
        (edge (S.rest source.old) (S.faults source.old) (K.sent sink.old) (K.faults sink.old))
        (edge (S.rest source.new) (S.faults source.new) (K.sent sink.new) (K.faults sink.new))
        (C.sees chip.old) (C.sees chip.new) }
{
    match open(alloc, chip) {
        Ok(part) => {
            let mut part = part;
            serve(alloc, &mut part, chip, source, sink)
        }
        Err(stop) => end_unopened(alloc, stop, sink),
    }
}

/// Opens the card that stands on a chip and has it answer the frames of a source. Where the chip
/// stands for none, the first frame is to make one. It gives the exit status.
pub fn run_card<S: Source, K: Sink, C: Chip>(
    alloc: Global,
    source: &mut S,
    sink: &mut K,
    chip: &mut C,
) -> u8
    // What was read and sent, and what the chip holds.
    ensures served { Served result
        (edge (S.rest source.old) (S.faults source.old) (K.sent sink.old) (K.faults sink.old))
        (edge (S.rest source.new) (S.faults source.new) (K.sent sink.new) (K.faults sink.new))
        (C.sees chip.old) (C.sees chip.new) }
    ensures own { result ≢ 1 }
    // Statuses 2, 3 and 4 come only where a call on the source, the sink or the chip failed.
    ensures causes { HasCauses
        (edge (S.rest source.old) (S.faults source.old) (K.sent sink.old) (K.faults sink.old))
        (edge (S.rest source.new) (S.faults source.new) (K.sent sink.new) (K.faults sink.new))
        (result ≡ 2) (result ≡ 3) }
    ensures faults { HasFaults (C.sees chip.old) (C.sees chip.new) (result ≡ 4) }
    // Frames within the limits that there is a card for are answered to their end, where no call
    // fails and memory suffices.
    ensures complete { (input : List ℕ) (fs : List (List ℕ))
        → S.rest source.old ≡ Some input → input ≡ framed fs → AreHandled (C.sees chip.old) fs
        → ¬ Rose (S.faults source.old) (S.faults source.new)
        → ¬ Rose (K.faults sink.old) (K.faults sink.new)
        → ¬ Rose (C.sees chip.old).faults (C.sees chip.new).faults
        → (result ≡ 0) ⊎ (result ≡ 6) }
    // An input that stops behind such frames ends the run with the status of its reason.
    ensures stops { (input : List ℕ) (fs : List (List ℕ)) (tail : List ℕ)
        → S.rest source.old ≡ Some input → input ≡ framed fs ++ tail
        → AreHandled (C.sees chip.old) fs
        → ¬ Rose (S.faults source.old) (S.faults source.new)
        → ¬ Rose (K.faults sink.old) (K.faults sink.new)
        → ¬ Rose (C.sees chip.old).faults (C.sees chip.new).faults
        → StopsWith (C.sees chip.old) fs tail result }
{
    open_and_serve(alloc, source, sink, chip).status()
}
