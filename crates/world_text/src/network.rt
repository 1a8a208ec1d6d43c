ghost use Rattle.std.specs.Prelude.{◌≡◌, ◌++◌, ◌+◌, ◌<◌, ◌^◌, List, length, take, OnOk, OnErr};
ghost use Rattle.esipa_codec.specs.declared.ends.MessageEnd.TheVariants.{Reply};
ghost use Rattle.esipa_codec.specs.declared.messages.Post.{Post};
ghost use Rattle.small_world.specs.Texts.{places_text, sent_text, also_sent, pushed_text};
ghost use Rattle.small_world.specs.Texts.{bind_text, order_text, skip_text};
ghost use Rattle.small_world.specs.Texts.{message_text, answer_text};

use esipa_codec::{BindEnd, MessageEnd, OrderEnd, ToIpa};
use iot_bytes::{NoMemory, Row};
use trace_text::put_number;

fn put_places(out: &mut Row<u8>, first: usize, count: usize) -> Result<(), NoMemory>
    requires { first + count < 2 ^ 64 }
    ensures ok { (posts : List Post) → length posts ≡ count
        → OnOk result (out.new ≡ out.old ++ places_text first posts) }
    ensures err { OnErr result (take (length out.old) out.new ≡ out.old) }
{
    for place in 0..count {
        put_number(out, b" ", (first + place) as u64)?;
    }
    Ok(())
}

/// Appends the places of messages that were sent, the first of them and how many there are.
#[tactic(auto, using(iot_bytes::proofs::Appending::appended), unfolding(small_world::specs::Texts::sent_text))]
pub fn put_sent(out: &mut Row<u8>, first: usize, count: usize) -> Result<(), NoMemory>
    requires { first + count < 2 ^ 64 }
    ensures ok { (posts : List Post) → length posts ≡ count
        → OnOk result (out.new ≡ out.old ++ sent_text first posts) }
    ensures err { OnErr result (take (length out.old) out.new ≡ out.old) }
{
    out.append(b"sent")?;
    put_places(out, first, count)
}

/// Appends the places of messages that were sent besides, and nothing where there is none.
#[tactic(auto, using(iot_bytes::proofs::Appending::appended))]
pub fn put_also_sent(out: &mut Row<u8>, first: usize, count: usize) -> Result<(), NoMemory>
    requires { first + count < 2 ^ 64 }
    ensures ok { (posts : List Post) → length posts ≡ count
        → OnOk result (out.new ≡ out.old ++ also_sent first posts) }
    ensures err { OnErr result (take (length out.old) out.new ≡ out.old) }
{
    if count == 0 {
        return Ok(());
    }
    out.append(b" ")?;
    put_sent(out, first, count)
}

/// Appends the places of the pending results that were sent, or that there was none.
pub fn put_pushed(out: &mut Row<u8>, first: usize, count: usize) -> Result<(), NoMemory>
    requires { first + count < 2 ^ 64 }
    ensures ok { (posts : List Post) → length posts ≡ count
        → OnOk result (out.new ≡ out.old ++ pushed_text first posts) }
    ensures err { OnErr result (take (length out.old) out.new ≡ out.old) }
{
    if count == 0 {
        out.append(b"nothing pending")
    } else {
        put_sent(out, first, count)
    }
}

/// Appends what became of a binding.
#[tactic(auto, unfolding(small_world::specs::Texts::bind_text))]
pub fn put_bind(out: &mut Row<u8>, end: BindEnd) -> Result<(), NoMemory>
    ensures ok { OnOk result (out.new ≡ out.old ++ bind_text end) }
    ensures err { OnErr result (take (length out.old) out.new ≡ out.old) }
{
    match end {
        BindEnd::Bound => out.append(b"bound"),
        BindEnd::Low(counter) => put_number(out, b"bind low ", counter),
    }
}

/// Appends what became of an order, and nothing where memory was wanting for it.
#[tactic(auto, unfolding(small_world::specs::Texts::order_text))]
pub fn put_order(out: &mut Row<u8>, end: OrderEnd) -> Result<(), NoMemory>
    ensures ok { OnOk result (out.new ≡ out.old ++ order_text end) }
    ensures err { OnErr result (take (length out.old) out.new ≡ out.old) }
{
    match end {
        OrderEnd::Ordered(counter) => put_number(out, b"ordered ", counter),
        OrderEnd::Unbound => out.append(b"unbound"),
        OrderEnd::CounterSpent => out.append(b"counter spent"),
        OrderEnd::NoMemory => Ok(()),
    }
}

/// Appends the counter of the order that was given up, or that none was waiting.
#[tactic(auto, unfolding(small_world::specs::Texts::skip_text))]
pub fn put_skip(out: &mut Row<u8>, end: Option<u64>) -> Result<(), NoMemory>
    ensures ok { OnOk result (out.new ≡ out.old ++ skip_text end) }
    ensures err { OnErr result (take (length out.old) out.new ≡ out.old) }
{
    match end {
        Some(counter) => put_number(out, b"skipped ", counter),
        None => out.append(b"none waiting"),
    }
}

#[tactic(auto, unfolding(small_world::specs::Texts::message_text))]
fn put_message(out: &mut Row<u8>, message: &ToIpa) -> Result<(), NoMemory>
    ensures ok { OnOk result (out.new ≡ out.old ++ message_text message.now) }
    ensures err { OnErr result (take (length out.old) out.new ≡ out.old) }
{
    match message {
        ToIpa::Package(_) => out.append(b" package"),
        ToIpa::Nothing => out.append(b" nothing"),
        ToIpa::Ack { seq } => put_number(out, b" ack ", u64::from(*seq)),
    }
}

#[tactic(auto, using(iot_bytes::proofs::Appending::appended), unfolding(small_world::specs::Texts::answer_text))]
fn put_reply(out: &mut Row<u8>, place: usize, message: &ToIpa) -> Result<(), NoMemory>
    ensures ok { OnOk result (out.new ≡ out.old ++ answer_text place (Reply message.now)) }
    ensures err { OnErr result (take (length out.old) out.new ≡ out.old) }
{
    put_number(out, b"reply ", place as u64)?;
    put_message(out, message)
}

/// Appends what a manager answered, by the place of its message, and nothing where memory was
/// wanting for it.
#[tactic(auto, unfolding(small_world::specs::Texts::answer_text))]
pub fn put_answer(out: &mut Row<u8>, place: usize, end: &MessageEnd) -> Result<(), NoMemory>
    ensures ok { OnOk result (out.new ≡ out.old ++ answer_text place end.now) }
    ensures err { OnErr result (take (length out.old) out.new ≡ out.old) }
{
    match end {
        MessageEnd::Reply(message) => put_reply(out, place, message),
        MessageEnd::Silent => out.append(b"silent"),
        MessageEnd::NoMemory => Ok(()),
    }
}
