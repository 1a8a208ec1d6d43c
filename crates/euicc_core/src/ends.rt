//! How the calls end.

use crate::card::EuiccCard;
use small_card::Answer;

/// How a step ends.
#[derive(Debug, Drop)]
pub enum StepEnd {
    /// The command was answered.
    Answered(Answer),
    /// A call of the chip failed. The card is dark from now on.
    Lost,
    /// The card is dark, and nothing was done.
    Dark,
    /// Memory ran out. The card, and what the chip holds, are as before.
    NoMemory,
}

/// Why a card didn't open.
#[derive(Clone, Copy, Debug, PartialEq, Eq)]
pub enum OpenError {
    /// A call of the chip failed.
    Failed,
    /// The chip stands for no card.
    Unrecognised,
    /// Memory ran out, and the chip still stands for its card.
    NoMemory,
}

/// How settling ends.
#[derive(Debug, Drop)]
pub enum SettleEnd {
    /// The card is lit, and answered to reset.
    Lit(EuiccCard),
    /// Each try ended by a fault of the chip.
    Spent,
    /// What the last power cycle gave stands for no card.
    Unrecognised,
    /// Memory ran out, and the chip still stands for its card.
    NoMemory,
}
