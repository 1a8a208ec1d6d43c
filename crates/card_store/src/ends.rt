//! How the calls end.

/// How a load ends without a card.
#[derive(Clone, Copy, Debug, PartialEq, Eq)]
pub enum LoadEnd {
    /// A call of the chip failed.
    Failed,
    /// What the chip reads stands for no card.
    Unrecognised,
    /// Memory ran out, and the chip still stands for its card.
    NoMemory,
}

/// Why no card was made.
#[derive(Clone, Copy, Debug, PartialEq, Eq)]
pub enum MakeError {
    /// A call of the chip failed, and what stands there isn't known.
    Failed,
    /// Memory ran out, and nothing was written.
    NoMemory,
}

/// Why nothing was staged. In neither case is anything written.
#[derive(Clone, Copy, Debug, PartialEq, Eq)]
pub enum StageError {
    /// A call of the chip failed.
    Failed,
    /// Memory ran out.
    NoMemory,
}
