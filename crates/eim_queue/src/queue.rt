ghost use Rattle.std.specs.Prelude.{◌≡◌, ◌≤◌, ◌-◌, length, position, Some, false};
ghost use Rattle.std.specs.List.{AllPass};
ghost use Rattle.sgp_values.specs.Ranges.{is_octet};
ghost use Rattle.small_card.specs.Lists.{same};
ghost use Rattle.small_card.specs.Ranges.{IsBody, IsNumber, IsSigned, greatest_counter};
ghost use Rattle.esipa_codec.specs.Eims.{EimState, bind_end, bound_to, heard, last_of, message_end};
ghost use Rattle.esipa_codec.specs.Eims.{new_eim, order_end, ordered, package_of, skip_end};
ghost use Rattle.esipa_codec.specs.Eims.{skipped};
ghost use Rattle.esipa_codec.specs.Records.{records_of};
ghost use Rattle.esipa_codec.specs.declared.messages.ToEim.TheVariants as to_eim;
ghost use Rattle.esipa_codec.specs.declared.messages.ToIpa.TheVariants as to_ipa;
ghost use Rattle.esipa_codec.specs.Ranges.{IsToEim};
ghost use Rattle.package_codec.specs.Spelling.{signed};
ghost use Rattle.eim_queue.specs.Queues.{IfOrdered, IfServed, IsEim, IsSendable};

use crate::orders::{Order, Orders};
use crate::records::Records;
use esipa_codec::{BindEnd, Binding, MessageEnd, OrderEnd, ToEim, ToIpa};
use iot_bytes::{NoMemory, Row};
use package_codec::write_signed;
use sgp_values::{Eid, EimId};
use small_card::limits::GREATEST_COUNTER;
use small_card::{Body, Package, PackageResult, Refused, Signed};
use std::alloc::Global;
use std::marker::Model;

/// A manager's queue for the card with one EID: its orders, oldest first, and its records.
#[derive(Debug, Drop)]
pub struct Eim {
    id: EimId,
    eid: Eid,
    bound: Option<Binding>,
    orders: Orders,
    records: Records,
    refusal: Option<Refused>,
}

impl Model for Eim {
    ghost use Rattle.eim_queue.specs.Queues.{Queue, queue_of, IsQueue};

    ghost Value = { Queue };

    ghost view = { queue_of };

    ghost invariant = { IsQueue };
}

impl Eim {
    /// A queue that isn't bound, without orders and records. It takes no memory.
    pub fn new(alloc: Global, id: EimId, eid: Eid) -> Eim
        ensures { IsEim result (new_eim id eid) }
    {
        Eim {
            id,
            eid,
            bound: None,
            orders: Orders::new(alloc),
            records: Records::new(alloc),
            refusal: None,
        }
    }

    /// Later orders use this association, and counters go on behind `last`. Where an order of that
    /// association has a greater counter nothing changes. It takes no memory.
    pub fn bind(&mut self, association: u32, last: u64) -> BindEnd
        requires association { IsNumber association }
        requires last { last ≤ greatest_counter }
        ensures end { (e : EimState) → IsEim self.old e → result ≡ bind_end association last e }
        ensures stands { (e : EimState) → IsEim self.old e
            → IsEim self.new (bound_to association last e) }
    {
        let used = self.orders.greatest_used(association);
        if last < used {
            return BindEnd::Low(used);
        }
        self.bound = Some(Binding { association, last });
        BindEnd::Bound
    }

    /// Orders these operations under the next counter of the association that the queue is bound
    /// to. Where memory is wanting nothing changes.
    pub fn order(&mut self, alloc: Global, body: Body) -> OrderEnd
        requires { IsBody body }
        ensures end { (e : EimState) → IsEim self.old e → IfOrdered result (result ≡ order_end e) }
        ensures stands { (e : EimState) → IsEim self.old e
            → IfOrdered result (IsEim self.new (ordered body e)) }
        ensures no_memory { result ≡ OrderEnd.NoMemory → self.new ≡ self.old }
    {
        match self.bound {
            None => OrderEnd::Unbound,
            Some(bound) => {
                if bound.last == GREATEST_COUNTER {
                    return OrderEnd::CounterSpent;
                }
                self.order_next(alloc, bound, body)
            }
        }
    }

    /// The next order of the association that the queue is bound to.
    fn order_next(&mut self, alloc: Global, bound: Binding, body: Body) -> OrderEnd
        requires bound { self.old.bound ≡ Some bound }
        requires left { bound.last ≤ greatest_counter - 1 }
        requires body { IsBody body }
        ensures end { (e : EimState) → IsEim self.old e → IfOrdered result (result ≡ order_end e) }
        ensures stands { (e : EimState) → IsEim self.old e
            → IfOrdered result (IsEim self.new (ordered body e)) }
        ensures no_memory { result ≡ OrderEnd.NoMemory → self.new ≡ self.old }
    {
        let counter = bound.last + 1;
        let order = Order {
            signed: self.package(alloc, bound.association, counter, body),
            waits: !self.records.is_known(bound.association, counter),
        };
        match self.orders.push(order) {
            Ok(()) => {
                self.bound = Some(Binding {
                    last: counter,
                    ..bound
                });
                OrderEnd::Ordered(counter)
            }
            Err(NoMemory) => OrderEnd::NoMemory,
        }
    }

    /// The package of an order, with an empty signature.
    fn package(&self, alloc: Global, association: u32, counter: u64, body: Body) -> Signed
        ensures { result ≡ package_of self.now.id self.now.eid
            (record { association = association; counter = counter; body = body; skipped = false }) }
    {
        Signed {
            package: Package {
                eim: self.id,
                eid: self.eid,
                association,
                counter,
                body,
            },
            signature: Row::new(alloc),
        }
    }

    /// Gives up the first order that waits, and gives its counter. It takes no memory.
    pub fn skip(&mut self) -> Option<u64>
        ensures end { (e : EimState) → IsEim self.old e → result ≡ skip_end e }
        ensures stands { (e : EimState) → IsEim self.old e → IsEim self.new (skipped e) }
    {
        match self.orders.first_waiting() {
            Some(at) => Some(self.orders.give_up(at)),
            None => None,
        }
    }

    /// Hears a message from the assistant. Where memory is wanting nothing changes.
    pub fn on_message(&mut self, alloc: Global, message: ToEim) -> MessageEnd
        ensures end { (e : EimState) → IsEim self.old e
            → IfServed result (result ≡ message_end message e) }
        ensures stands { (e : EimState) → IsEim self.old e
            → IfServed result (IsEim self.new (heard message e)) }
        ensures no_memory { result ≡ MessageEnd.NoMemory → self.new ≡ self.old }
        // What is sent is in range, and short.
        ensures range { IsToEim message → IsSendable result }
    {
        match message {
            ToEim::Poll { eid } => self.on_poll(alloc, &eid),
            ToEim::Result(item) => self.on_result(item),
            ToEim::Refused(refused) => {
                self.refusal = Some(refused);
                MessageEnd::Silent
            }
        }
    }

    /// A poll for this card fetches the package of the first order that waits.
    fn on_poll(&mut self, alloc: Global, eid: &Eid) -> MessageEnd
        ensures end { (e : EimState) → IsEim self.old e
            → IfServed result (result ≡ message_end (to_eim.Poll eid.now) e) }
        ensures same { self.new ≡ self.old }
        ensures range { IsSendable result }
    {
        let first = self.first_waiting();
        self.fetched(alloc, eid, first)
    }

    /// The place of the first order that waits.
    fn first_waiting(&mut self) -> Option<usize>
        ensures place { result ≡ position (λ o. o.waits) self.old.orders }
        ensures same { self.new ≡ self.old }
    {
        self.orders.first_waiting()
    }

    /// The answer to a poll, where the first order that waits is known.
    fn fetched(&self, alloc: Global, eid: &Eid, first: Option<usize>) -> MessageEnd
        requires { first ≡ position (λ o. o.waits) self.now.orders }
        ensures end { (e : EimState) → IsEim self.now e
            → IfServed result (result ≡ message_end (to_eim.Poll eid.now) e) }
        ensures range { IsSendable result }
    {
        if !is_same_card(eid, &self.eid) {
            return MessageEnd::Reply(ToIpa::Nothing);
        }
        match first {
            Some(at) => spelled(alloc, &self.orders.as_slice()[at].signed),
            None => MessageEnd::Reply(ToIpa::Nothing),
        }
    }

    /// A result of this eIM is recorded and acknowledged by its own number; another is not heard.
    fn on_result(&mut self, item: PackageResult) -> MessageEnd
        ensures end { (e : EimState) → IsEim self.old e
            → IfServed result (result ≡ message_end (to_eim.Result item) e) }
        ensures stands { (e : EimState) → IsEim self.old e
            → IfServed result (IsEim self.new (heard (to_eim.Result item) e)) }
        ensures no_memory { result ≡ MessageEnd.NoMemory → self.new ≡ self.old }
        ensures range { IsNumber item.seq → IsSendable result }
    {
        if !is_same_eim(&item.eim, &self.id) {
            return MessageEnd::Silent;
        }
        let (seq, association, counter) = (item.seq, item.association, item.counter);
        match self.records.receive(item) {
            Ok(()) => {
                self.orders.settle(association, counter);
                MessageEnd::Reply(ToIpa::Ack { seq })
            }
            Err(NoMemory) => MessageEnd::NoMemory,
        }
    }

    /// The records, in the order of first receiving. It takes no memory.
    pub fn records(&self) -> &[PackageResult]
        ensures { (e : EimState) → IsEim self.now e → result.now ≡ records_of e.received }
    {
        self.records.as_slice()
    }

    /// The last refusal that was received. It takes no memory.
    pub fn last_refusal(&self) -> Option<Refused>
        ensures { (e : EimState) → IsEim self.now e → result ≡ last_of e.refusals }
    {
        self.refusal
    }
}

fn is_same_eim(one: &EimId, other: &EimId) -> bool
    ensures { result ≡ same one.now other.now }
{
    one == other
}

fn is_same_card(one: &Eid, other: &Eid) -> bool
    ensures { result ≡ same one.now other.now }
{
    one == other
}

// What octets are: nothing is done.
fn told(octets: &[u8]) -> bool
    ensures { AllPass is_octet octets.now }
{
    octets.is_empty()
}

// These octets as a package.
fn carried(bytes: Row<u8>) -> MessageEnd
    ensures end { result ≡ MessageEnd.Reply (to_ipa.Package bytes) }
    ensures range { length bytes ≤ 3485 → IsSendable result }
{
    told(bytes.as_slice());
    MessageEnd::Reply(ToIpa::Package(bytes))
}

/// The octets of a package.
fn spelled(alloc: Global, package: &Signed) -> MessageEnd
    requires { IsSigned «package».now }
    ensures end { IfServed result (result ≡ MessageEnd.Reply
        (to_ipa.Package (signed «package».now))) }
    ensures range { IsSendable result }
{
    let mut bytes = Row::new(alloc);
    match write_signed(package, &mut bytes) {
        Ok(()) => carried(bytes),
        Err(NoMemory) => MessageEnd::NoMemory,
    }
}
