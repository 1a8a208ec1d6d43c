//! The list of the public surface.

ghost use Rattle.std.specs.Prelude.{◌≡◌, [], ◌<◌, ◌≤◌, ◌↔◌, length, take, slice_get, slice_set};
ghost use Rattle.std.specs.Prelude.{remove, IsTrue, IfOk};
ghost use Rattle.std.specs.Borrow.{Lends, sem};
ghost use Rattle.iot_bytes.specs.contracts.row.Row.{the_row};
ghost use Rattle.iot_bytes.specs.contracts.reserve.Reserve.{the_row as held_row};

use crate::memory::NoMemory;
use crate::reserve::Reserve;
use std::alloc::Global;
use std::marker::Model;
use std::ops::{Deref, DerefMut};

/// A list that contracts see as the plain list of its items.
///
/// It is lent as a [`Reserve`], whose contracts see its spare room too: what may grow it, as
/// [`push`](Reserve::push) and [`append`](Reserve::append), is the reserve's. How much room there
/// is lasts as long as one loan: bind it once where two calls rest on it. The list keeps the
/// allocator that it was made with, so a call that may grow it takes none.
#[derive(Debug, Drop)]
pub struct Row<T> {
    held: Reserve<T>,
}

impl<T> Model for Row<T> {
    ghost use Rattle.std.specs.Prelude.{List};
    ghost use Rattle.std.specs.Coded.{coded_list};

    ghost Value = { List T };

    ghost coded = { coded_list T.code };

    ghost view = { λ row. row.held.items };
}

impl<T> Row<T> {
    /// The empty list. It takes no memory until the first item comes.
    pub fn new(alloc: Global) -> Row<T>
        ensures { result ≡ [] }
    {
        Row {
            held: Reserve::new(alloc),
        }
    }

    /// The items of a `Vec`, with its memory. It takes no further memory.
    pub fn from_vec(items: Vec<T>) -> Row<T>
        ensures { result ≡ items.items }
    {
        Row {
            held: Reserve::from_vec(items),
        }
    }

    /// The items of a reserve, with its room.
    pub fn from_reserve(held: Reserve<T>) -> Row<T>
        ensures { result ≡ held.items }
    {
        Row { held }
    }

    /// The list with its room.
    pub fn into_reserve(self) -> Reserve<T>
        ensures { result.items ≡ self }
    {
        let Row { held } = self;
        held
    }

    /// The items as a `Vec`, with the list's memory, to go over them by value.
    pub fn into_vec(self) -> Vec<T>
        ensures { result.items ≡ self }
    {
        self.into_reserve().into_vec()
    }

    /// How many items the list has.
    pub fn len(&self) -> usize
        ensures { result ≡ length self.now }
    {
        self.held.len()
    }

    /// Whether the list has no item.
    pub fn is_empty(&self) -> bool
        ensures { IsTrue result ↔ (self.now ≡ []) }
    {
        self.held.is_empty()
    }

    /// The items, in their order.
    pub fn as_slice(&self) -> &[T]
        ensures { result.now ≡ self.now }
    {
        self.held.as_slice()
    }

    /// Puts another item at a place, and hands the former one back. It takes no memory.
    pub fn set(&mut self, at: usize, item: T) -> T
        requires { at < length self.old }
        ensures former { slice_get self.old at ≡ Some result }
        ensures items { self.new ≡ slice_set self.old at item }
    {
        self.held.set(at, item)
    }

    /// Takes an item out and closes up. It takes no memory.
    pub fn remove(&mut self, at: usize) -> T
        requires { at < length self.old }
        ensures item { slice_get self.old at ≡ Some result }
        ensures rest { self.new ≡ remove self.old at }
    {
        self.held.remove(at)
    }
}

impl<T: Drop> Row<T> {
    /// Keeps the first `len` items and drops the others. It takes no memory.
    pub fn cut(&mut self, len: usize)
        requires { len ≤ length self.old }
        ensures { self.new ≡ take len self.old }
    {
        self.held.cut(len);
    }
}

impl<T: Copy> Row<T> {
    /// A list of the same items, in memory of its own.
    pub fn copy(&self, alloc: Global) -> Result<Row<T>, NoMemory>
        ensures { IfOk result (λ row. row ≡ self.now) }
    {
        let items = self.held.as_slice();
        Ok(Row::from_vec(Vec::from_slice(alloc, items)?))
    }
}

impl<T> Deref for Row<T> {
    type Target = Reserve<T>;

    ghost deref_gives = { λ row held. held.items ≡ row };

    fn deref(&self) -> &Reserve<T> {
        &self.held
    }
}

impl<T> DerefMut for Row<T> {
    ghost deref_mut_gives = { λ row held. held.items ≡ row };

    fn deref_mut(&mut self) -> &mut Reserve<T>
        ensures* writes_back { sem 𝓛 (Lends (the_row T.row) (held_row T.row) self.entry result
            (λ left. left.items)) }
        ensures items { result.now.items ≡ self.old }
    {
        &mut self.held
    }
}

impl<T: PartialEq> PartialEq for Row<T> {
    ghost use Rattle.std.specs.Cmp.Lexicographic.{pointwise, lists_per};

    ghost eq = { pointwise T.eq };

    ghost laws = { lists_per T.laws };

    fn eq(&self, other: &Row<T>) -> bool {
        self.as_slice() == other.as_slice()
    }
}

impl<T: Eq> Eq for Row<T> {
    ghost use Rattle.std.specs.Cmp.Lexicographic.{lists_equiv};

    ghost laws = { lists_equiv T.Eq.laws };
}
