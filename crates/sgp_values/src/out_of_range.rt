use thiserror::Error;

/// The octets handed to an `of` are outside the range of its type.
#[derive(Clone, Copy, Debug, PartialEq, Eq, Error)]
#[error("the octets are outside the range of the value")]
pub struct OutOfRange;
