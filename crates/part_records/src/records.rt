use esipa_codec::{Post, ToEim, ToIpa};
use iot_bytes::Row;
use sgp_values::EimId;
use small_card::{Answer, Body, Command};

/// What comes to a manager: the association that the card has for it, with the last counter that
/// was used; an order; the wish to give up the first order that waits; a message.
#[derive(Debug, Drop)]
pub enum EimInput {
    Bind { association: u32, last: u64 },
    Order(Body),
    Skip,
    Message(ToEim),
}

/// Why a manager doesn't do what it is asked for: it isn't bound, its last counter is the greatest,
/// an order has a counter above the one to be bound to, or no order waits.
#[derive(Clone, Copy, Debug, PartialEq, Eq)]
pub enum EimRefusal {
    Unbound,
    CounterSpent,
    BindLow,
    NoneWaiting,
}

/// What a manager gives: the counter of an order or of one that was given up, why not, word that it
/// is bound, the answer to a message, or nothing.
#[derive(Debug, Drop)]
pub enum EimOutput {
    Ordered { counter: u64 },
    Refused(EimRefusal),
    Bound,
    Skipped { counter: u64 },
    Reply(ToIpa),
    Silent,
}

/// What comes to an assistant: a message of a manager, with the verdict on a package's signature;
/// whether a probe of the connection passed; a restart; the wish for results; the card's answer;
/// the manager to ask for a package.
#[derive(Debug, Drop)]
pub enum IpaInput {
    Message {
        from: EimId,
        good: bool,
        message: ToIpa,
    },
    Probe(bool),
    Restart,
    Push,
    Answered(Answer),
    Poll(EimId),
}

/// What an assistant does: a command to the card, messages to managers in this order, or nothing.
#[derive(Debug, Drop)]
pub enum Deeds {
    ToCard(Command),
    ToEims(Row<Post>),
    Nothing,
}
