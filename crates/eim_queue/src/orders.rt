//! Orders, and what is found and changed among them.
ghost use Rattle.std.specs.Prelude.{◌≡◌, ◌≤◌, ◌<◌, [], ◌∷◌, ◌++◌, position, map, take, length};
ghost use Rattle.std.specs.Prelude.{ℕ, ◌==◌, if◌then◌else◌, false, Some, OnOk, OnErr};
ghost use Rattle.std.specs.Prelude.{slice_get, slice_set};
ghost use Rattle.std.specs.Option.{unwrap_or};
ghost use Rattle.std.specs.Ordering.{nat_cmp};
ghost use Rattle.std.specs.BTreeMap.{get};
ghost use Rattle.small_card.specs.Lists.{Every, greatest};
ghost use Rattle.eim_queue.specs.declared.orders.Order.{Order};
ghost use Rattle.eim_queue.specs.Orders.{settled, used_counters};

use crate::places::{Places, keep_place, place};
use iot_bytes::NoMemory;
use small_card::Signed;
use std::alloc::Global;
use std::collections::BTreeMap;
use std::marker::Model;

/// An order: its package, and whether it waits to be fetched.
#[derive(Debug, Drop)]
pub struct Order {
    pub signed: Signed,
    pub waits: bool,
}

/// Orders, oldest first. What is looked for among them is found without a walk through all.
#[derive(Debug, Drop)]
pub(crate) struct Orders {
    items: Vec<Order>,
    /// No order before this place waits.
    first: usize,
    /// The place of each order.
    places: Places,
    /// The greatest counter of each association that has orders.
    counters: BTreeMap<u32, u64>,
}

impl Model for Orders {
    ghost use Rattle.std.specs.Prelude.{List};
    ghost use Rattle.eim_queue.specs.declared.orders.Order.{Order};
    ghost use Rattle.eim_queue.specs.Orders.{AreOrders};

    ghost Value = { List Order };

    ghost view = { λ o. o.items.items };

    ghost invariant = { λ o. AreOrders o.items.items o.first o.places o.counters };
}

impl Orders {
    /// No orders. It takes no memory.
    pub(crate) fn new(alloc: Global) -> Orders
        ensures { result ≡ [] }
    {
        Orders {
            items: Vec::new(alloc),
            first: 0,
            places: BTreeMap::new(alloc),
            counters: BTreeMap::new(alloc),
        }
    }

    /// The orders as they stand.
    pub(crate) fn as_slice(&self) -> &[Order]
        ensures { result.now ≡ self.now }
    {
        self.items.as_slice()
    }

    /// The greatest counter of the orders of this association, 0 where there is none.
    pub(crate) fn greatest_used(&self, association: u32) -> u64
        ensures { result ≡ greatest (used_counters association self.now) }
    {
        self.counters.get(&association).copied().unwrap_or(0)
    }

    /// The order goes last. Where memory is wanting nothing changes.
    pub(crate) fn push(&mut self, order: Order) -> Result<(), NoMemory>
        requires { greatest (used_counters order.signed.«package».association self.old)
            < order.signed.«package».counter }
        ensures ok { OnOk result (self.new ≡ self.old ++ order ∷ []) }
        ensures err { OnErr result (self.new ≡ self.old) }
    {
        let package = &order.signed.package;
        let (association, counter) = (package.association, package.counter);
        let last = self.items.len();
        keep_place(&mut self.places, association, counter, last)?;
        push_order(&mut self.items, order)?;
        match keep_counter(&mut self.counters, association, counter) {
            Ok(()) => Ok(()),
            Err(NoMemory) => {
                self.items.truncate(last);
                Err(NoMemory)
            }
        }
    }

    /// The place of the first order that waits. The next look begins there.
    pub(crate) fn first_waiting(&mut self) -> Option<usize>
        ensures place { result ≡ position (λ o. o.waits) self.old }
        ensures same { self.new ≡ self.old }
    {
        let found = next_waiting(&self.items, self.first);
        self.first = found.unwrap_or(self.items.len());
        found
    }

    /// The order at this place doesn't wait any more. Gives its counter.
    pub(crate) fn give_up(&mut self, at: usize) -> u64
        requires { at < length self.old }
        ensures order { (o : Order) → slice_get self.old at ≡ Some o
            → self.new ≡ slice_set self.old at (record o { waits = false }) }
        ensures counter { (o : Order) → slice_get self.old at ≡ Some o
            → result ≡ o.signed.«package».counter }
    {
        give_up(&mut self.items[at])
    }

    /// The orders of this association and counter don't wait any more.
    pub(crate) fn settle(&mut self, association: u32, counter: u64)
        ensures { self.new ≡ map (settled association counter) self.old }
    {
        match place(&self.places, association, counter) {
            Some(at) => {
                if at < self.items.len() {
                    settle_one(&mut self.items[at], association, counter);
                }
            }
            None => {}
        }
    }
}

fn push_order(orders: &mut Vec<Order>, order: Order) -> Result<(), NoMemory>
    ensures ok { OnOk result (orders.new.items ≡ orders.old.items ++ order ∷ []) }
    ensures err { OnErr result (orders.new.items ≡ orders.old.items) }
{
    orders.push(order).map_err(|_| NoMemory)
}

/// The place of the first order that waits, where none before this place does.
fn next_waiting(orders: &[Order], from: usize) -> Option<usize>
    requires inside { from ≤ length orders.now }
    requires passed { Every (λ o. o.waits ≡ false) (take from orders.now) }
    ensures { result ≡ position (λ o. o.waits) orders.now }
{
    match first_waiting(&orders[from..]) {
        Some(further) => Some(from + further),
        None => None,
    }
}

fn first_waiting(orders: &[Order]) -> Option<usize>
    ensures { result ≡ position (λ o. o.waits) orders.now }
{
    orders.iter().position(|order| order.waits)
}

fn give_up(order: &mut Order) -> u64
    ensures order { order.new ≡ record order.old { waits = false } }
    ensures counter { result ≡ order.old.signed.«package».counter }
{
    order.waits = false;
    order.signed.package.counter
}

fn settle_one(order: &mut Order, association: u32, counter: u64)
    ensures { order.new ≡ settled association counter order.old }
{
    let package = &order.signed.package;
    let heard = association == package.association && counter == package.counter;
    order.waits = order.waits && !heard;
}

/// The greatest counter of an association is kept.
fn keep_counter(
    counters: &mut BTreeMap<u32, u64>,
    association: u32,
    counter: u64,
) -> Result<(), NoMemory>
    ensures ok { (a : ℕ) → OnOk result (unwrap_or (get nat_cmp counters.new a) 0
        ≡ (if association == a then counter else unwrap_or (get nat_cmp counters.old a) 0)) }
    ensures err { (a : ℕ) → OnErr result (get nat_cmp counters.new a ≡ get nat_cmp counters.old a) }
{
    match counters.insert(association, counter) {
        Ok(_) => Ok(()),
        Err(_) => Err(NoMemory),
    }
}
