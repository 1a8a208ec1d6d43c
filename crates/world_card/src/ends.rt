/// How a boot ends.
#[derive(Clone, Copy, Debug, PartialEq, Eq)]
pub enum BootEnd {
    /// The card answered to reset, and is lit.
    Booted,
    /// The power cycle or a call of the chip failed. The card is dark.
    Lost,
    /// The chip stands for no card. It never comes over a bench that tells its content.
    Foreign,
    /// Memory ran out. The chip stands for what it stood for.
    NoMemory,
}
