use crate::messages::{Post, ToIpa};
use iot_bytes::Row;

/// What the assistant does next: a command to the card (a package with the verdict on its
/// signature, the removal of a recorded result, a rollback, or the question for the pending
/// results), messages to eIMs in this order, or nothing.
#[derive(Debug, Drop)]
pub enum Act {
    Load { good: bool, bytes: Row<u8> },
    Remove { seq: u32 },
    Rollback,
    Ask,
    Send(Row<Post>),
    Rest,
}

/// An eIM was bound to an association, or an order of that association has a counter above the one
/// that was given; `Low` carries the greatest such counter.
#[derive(Clone, Copy, Debug, PartialEq, Eq)]
pub enum BindEnd {
    Bound,
    Low(u64),
}

/// An order got this counter, or there is none: the eIM isn't bound, or its last counter is the
/// greatest.
#[derive(Clone, Copy, Debug, PartialEq, Eq)]
pub enum OrderEnd {
    Ordered(u64),
    Unbound,
    CounterSpent,
    NoMemory,
}

/// What an eIM answers to a message.
#[derive(Debug, Drop)]
pub enum MessageEnd {
    Reply(ToIpa),
    Silent,
    NoMemory,
}

/// What an eIM is bound to: an association, and the last counter that was used with it.
#[derive(Clone, Copy, Debug, PartialEq, Eq)]
pub struct Binding {
    pub association: u32,
    pub last: u64,
}
