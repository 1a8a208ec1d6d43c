ghost use Rattle.std.specs.Prelude.{◌≡◌, ◌↔◌, ◌≤◌, [], true, false, find, None, IfOk, IsSome};
ghost use Rattle.std.specs.Option.{option_copied};
ghost use Rattle.small_card.specs.Checks.{has_room};
ghost use Rattle.small_card.specs.Units.{has_seq, is_pending};
ghost use Rattle.result_store.specs.Calls as call;
ghost use Rattle.result_store.specs.Calls.{after_call};
ghost use Rattle.result_store.specs.Stores.{IsStore};

use crate::places::{copy_results, find_result, mark_last, put_last, take_out};
use iot_bytes::{NoMemory, Reserve, Row};
use sgp_values::EimId;
use small_card::limits::MOST_PENDING;
use small_card::{Item, PackageResult, are_numbered};
use std::alloc::Global;
use std::marker::Model;

/// The greatest next number at which a result may come: its own number and that of its mark are
/// left below the greatest of all.
const LAST_WITH_ROOM: u32 = u32::MAX - 2;

/// The pending results of a card in rising sequence numbers, at most 8, and the next number.
///
/// Each result's number is from 1 to below the next one. The memory for 8 results is taken when the
/// store is made; what a result's own items take comes with them.
#[derive(Debug, Drop)]
pub struct Store {
    pending: Reserve<PackageResult>,
    next: u32,
}

impl Model for Store {
    ghost use Rattle.small_card.specs.Cards.{Results};

    ghost Value = { Results };

    ghost use Rattle.result_store.specs.Fields.{results_of, IsKept};

    ghost view = { results_of };

    ghost invariant = { IsKept };
}

/// How a removal ends.
#[derive(Clone, Copy, Debug, PartialEq, Eq)]
pub enum RemoveEnd {
    /// The result was pending, and isn't any more.
    Removed,
    /// No pending result has the number, and nothing changed.
    Absent,
}

fn end_of(taken: &Option<PackageResult>) -> RemoveEnd
    ensures { (result ≡ RemoveEnd.Absent) ↔ (taken.now ≡ None) }
{
    match taken {
        Some(_) => RemoveEnd::Removed,
        None => RemoveEnd::Absent,
    }
}

impl Store {
    /// The store without a result, whose first result gets the number `next`.
    pub fn new(alloc: Global, next: u32) -> Result<Store, NoMemory>
        requires { 1 ≤ next }
        ensures { IfOk result (λ store. store ≡ record { pending = []; next = next }) }
    {
        Ok(Store {
            pending: Reserve::with_room(alloc, MOST_PENDING)?,
            next,
        })
    }

    /// Whether these results and the next number may stand in a store, as [`Store::of`] wants it:
    /// at most 8 results in rising numbers, each from 1 to below the next one, which is from 1. It
    /// takes no memory.
    pub fn fits(pending: &[PackageResult], next: u32) -> bool
        ensures exact { (result ≡ true) ↔ IsStore (record { pending = pending.now; next = next }) }
    {
        are_numbered(pending, MOST_PENDING, next)
    }

    /// The store of these results, none or at most 8, whose next result gets the number `next`.
    ///
    /// It takes the memory for 8 results from the row's own allocator. Where memory runs out the
    /// results are dropped.
    pub fn of(pending: Row<PackageResult>, next: u32) -> Result<Store, NoMemory>
        requires { IsStore (record { pending = pending; next = next }) }
        ensures { IfOk result (λ store. store ≡ record { pending = pending; next = next }) }
    {
        let room = MOST_PENDING - pending.len();
        Ok(Store {
            pending: Reserve::of(pending, room)?,
            next,
        })
    }

    /// Whether another result may come: fewer than 8 are pending, and two numbers are left below
    /// 4,294,967,295, the result's and that of its mark. It takes no memory.
    #[tactic(auto, unfolding(small_card::specs::Checks::has_room))]
    pub fn has_room(&self) -> bool
        ensures { result ≡ has_room self.now }
    {
        self.pending.len() < MOST_PENDING && self.next <= LAST_WITH_ROOM
    }

    /// The pending results, in rising numbers. It takes no memory.
    pub fn rows(&self) -> &[PackageResult]
        ensures rows { result.now ≡ self.now.pending }
        ensures store { IsStore self.now }
    {
        self.pending.as_slice()
    }

    /// Tells a caller's proof that the results may stand in a store. It does nothing.
    pub fn in_range(&self)
        ensures store { IsStore self.now }
    {
        let _ = &self.pending;
    }

    /// The number that is given out next. It takes no memory.
    pub fn next(&self) -> u32
        ensures next { result ≡ self.now.next }
        ensures some { 1 ≤ result }
    {
        self.next
    }

    /// The pending result with this number. It takes no memory.
    pub fn get(&self, seq: u32) -> Option<&PackageResult>
        ensures found { option_copied result ≡ find (has_seq seq) self.now.pending }
        ensures there { IsSome result ↔ (is_pending seq self.now.pending ≡ true) }
    {
        find_result(self.pending.as_slice(), seq)
    }

    /// Keeps the result of an executed package under the next number, which it gives. The items are
    /// moved in, and it takes no memory.
    #[tactic(auto, unfolding(small_card::specs::Packages::with_result, small_card::specs::Checks::has_room))]
    pub fn put(&mut self, eim: EimId, association: u32, counter: u64, items: Row<Item>) -> u32
        requires { has_room self.old ≡ true }
        ensures number { result ≡ self.old.next }
        ensures kept { self.new ≡ after_call self.old (call.put eim association counter items) }
    {
        let seq = self.next;
        let kept = PackageResult {
            seq,
            eim,
            association,
            counter,
            items,
            rolled: false,
        };
        put_last(&mut self.pending, kept);
        self.next = seq + 1;
        seq
    }

    /// Drops the result with this number, as its manager has recorded it. It takes no memory.
    #[tactic(auto, unfolding(small_card::specs::Units::without_result))]
    pub fn remove(&mut self, seq: u32) -> RemoveEnd
        ensures rest { self.new ≡ after_call self.old (call.remove seq) }
        ensures absent { (result ≡ RemoveEnd.Absent) ↔ (is_pending seq self.old.pending ≡ false) }
        ensures unchanged { result ≡ RemoveEnd.Absent → self.new ≡ self.old }
    {
        end_of(&take_out(&mut self.pending, seq))
    }

    /// Marks the result with this number as rolled back: it goes last, under the next number, which
    /// the call gives. It takes no memory.
    #[tactic(auto, unfolding(small_card::specs::Units::marked))]
    pub fn mark_rolled(&mut self, seq: u32) -> u32
        requires pending { is_pending seq self.old.pending ≡ true }
        requires number { self.old.next ≤ 4294967294 }
        ensures number { result ≡ self.old.next }
        ensures marked { self.new ≡ after_call self.old (call.mark_rolled seq) }
    {
        let number = self.next;
        mark_last(&mut self.pending, seq, number);
        self.next = number + 1;
        number
    }

    /// Gives the next number away without a result. It takes no memory.
    #[tactic(auto, unfolding(crate::specs::Stores::passed))]
    pub fn pass_number(&mut self) -> u32
        requires { self.old.next ≤ 4294967294 }
        ensures number { result ≡ self.old.next }
        ensures passed { self.new ≡ after_call self.old call.pass_number }
    {
        let given = self.next;
        self.next = given + 1;
        given
    }

    /// The pending results once more, in memory of their own.
    pub fn list(&self, alloc: Global) -> Result<Row<PackageResult>, NoMemory>
        ensures { IfOk result (λ rows. rows ≡ self.now.pending) }
    {
        let rows = self.pending.as_slice();
        Ok(copy_results(alloc, rows, rows.len())?.into_row())
    }

    /// The same store once more, in memory of its own.
    pub fn copy(&self, alloc: Global) -> Result<Store, NoMemory>
        ensures { IfOk result (λ store. store ≡ self.now) }
    {
        Ok(Store {
            pending: copy_results(alloc, self.pending.as_slice(), MOST_PENDING)?,
            next: self.next,
        })
    }
}
