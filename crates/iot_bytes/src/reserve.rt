//! The list whose spare room contracts see.

ghost use Rattle.std.specs.Prelude.{◌≡◌, [], ◌∷◌, ◌++◌, ◌<◌, ◌+◌, ◌-◌, ◌≤◌, ◌↔◌, length, take};
ghost use Rattle.std.specs.Prelude.{drop, slice_get, slice_set, remove, IsTrue, IsOk, IfOk, OnOk};
ghost use Rattle.std.specs.Prelude.{OnErr, IfErr};

use crate::memory::NoMemory;
use crate::row::Row;
use std::alloc::Global;
use std::marker::Model;
use std::mem;

/// A list that contracts see with its spare room, for those who must not want memory later.
///
/// `spare` counts the items that it takes without asking for memory. It keeps the allocator that it
/// was made with.
#[derive(Debug, Drop)]
pub struct Reserve<T> {
    inner: Vec<T>,
}

impl<T> Model for Reserve<T> {
    ghost use Rattle.std.specs.Prelude.{◌-◌, ◌≤◌, vec_len, vec_capacity};
    ghost use Rattle.iot_bytes.specs.Reserved.{Reserved, reserved_code};

    ghost Value = { Reserved T };

    ghost coded = { reserved_code T.code };

    ghost view = { λ row. record { items = row.inner.items; spare = vec_capacity row.inner - vec_len row.inner } };
}

impl<T> Reserve<T> {
    /// The empty list. It takes no memory until the first item comes.
    pub fn new(alloc: Global) -> Reserve<T>
        ensures { result.items ≡ [] }
    {
        Reserve {
            inner: Vec::new(alloc),
        }
    }

    /// The empty list, with memory for `n` items taken at once.
    pub fn with_room(alloc: Global, n: usize) -> Result<Reserve<T>, NoMemory>
        ensures items { IfOk result (λ row. row.items ≡ []) }
        ensures spare { IfOk result (λ row. n ≤ row.spare) }
    {
        Ok(Reserve {
            inner: Vec::with_capacity(alloc, n)?,
        })
    }

    /// The items of a `Vec`, with its memory.
    pub(crate) fn from_vec(inner: Vec<T>) -> Reserve<T>
        ensures { result.items ≡ inner.items }
    {
        Reserve { inner }
    }

    /// The items as a `Vec`, with the list's memory.
    pub(crate) fn into_vec(self) -> Vec<T>
        ensures { result.items ≡ self.items }
    {
        let Reserve { inner } = self;
        inner
    }

    // The allocator that the list keeps.
    pub(crate) fn allocator(&self) -> Global {
        *self.inner.allocator()
    }

    /// The items of a row, with memory for `room` more.
    ///
    /// Where memory runs out the row is dropped.
    pub fn of(row: Row<T>, room: usize) -> Result<Reserve<T>, NoMemory>
    where
        T: Drop,
        ensures items { IfOk result (λ held. held.items ≡ row) }
        ensures spare { IfOk result (λ held. room ≤ held.spare) }
    {
        let mut held = row.into_reserve();
        held.room(room)?;
        Ok(held)
    }

    /// The items of a row, with memory for `room` more, or the row where memory ran out.
    pub fn of_or_back(row: Row<T>, room: usize) -> Result<Reserve<T>, Row<T>>
        ensures items { IfOk result (λ held. held.items ≡ row) }
        ensures spare { IfOk result (λ held. room ≤ held.spare) }
        ensures back { IfErr result (λ back. back ≡ row) }
    {
        let mut held = row.into_reserve();
        match held.room(room) {
            Ok(()) => Ok(held),
            Err(_) => Err(held.into_row()),
        }
    }

    /// The list alone. It takes no memory.
    pub fn into_row(self) -> Row<T>
        ensures { result ≡ self.items }
    {
        Row::from_reserve(self)
    }

    /// How many items the list has.
    pub fn len(&self) -> usize
        ensures { result ≡ length self.now.items }
    {
        self.inner.len()
    }

    /// Whether the list has no item.
    pub fn is_empty(&self) -> bool
        ensures { IsTrue result ↔ (self.now.items ≡ []) }
    {
        self.inner.is_empty()
    }

    /// How many more items the list takes without asking for memory.
    pub fn spare(&self) -> usize
        ensures { result ≡ self.now.spare }
    {
        let len = self.inner.len();
        let capacity = self.inner.capacity();
        capacity.saturating_sub(len)
    }

    /// The items, in their order.
    pub fn as_slice(&self) -> &[T]
        ensures { result.now ≡ self.now.items }
    {
        self.inner.as_slice()
    }

    /// Takes memory until the spare room is at least `more`. It asks for none where there is as
    /// much.
    pub fn room(&mut self, more: usize) -> Result<(), NoMemory>
        ensures items { self.new.items ≡ self.old.items }
        ensures spare { OnOk result (more ≤ self.new.spare) }
        ensures keeps { self.old.spare ≤ self.new.spare }
        ensures succeeds { more ≤ self.old.spare → IsOk result }
    {
        self.inner.reserve(more)?;
        Ok(())
    }

    /// Appends an item, or hands it back where memory ran out.
    pub fn push(&mut self, item: T) -> Result<(), T>
        ensures ok { OnOk result (self.new.items ≡ self.old.items ++ item ∷ []) }
        ensures err { IfErr result (λ back. (back ≡ item) × (self.new.items ≡ self.old.items)) }
        ensures spare { self.old.spare ≤ self.new.spare + 1 }
        ensures succeeds { 0 < self.old.spare → IsOk result }
    {
        match self.inner.push(item) {
            Ok(()) => Ok(()),
            Err(refused) => Err(refused.value),
        }
    }

    /// Puts another item at a place, and hands the former one back. It takes no memory.
    pub fn set(&mut self, at: usize, item: T) -> T
        requires { at < length self.old.items }
        ensures former { slice_get self.old.items at ≡ Some result }
        ensures items { self.new.items ≡ slice_set self.old.items at item }
        ensures spare { self.new.spare ≡ self.old.spare }
    {
        mem::replace(&mut self.inner[at], item)
    }

    /// Takes an item out and closes up. It takes no memory.
    pub fn remove(&mut self, at: usize) -> T
        requires { at < length self.old.items }
        ensures item { slice_get self.old.items at ≡ Some result }
        ensures rest { self.new.items ≡ remove self.old.items at }
        ensures spare { self.new.spare ≡ self.old.spare + 1 }
    {
        self.inner.remove(at)
    }
}

impl<T: Drop> Reserve<T> {
    /// Keeps the first `len` items and drops the others. It takes no memory.
    pub fn cut(&mut self, len: usize)
        requires { len ≤ length self.old.items }
        ensures items { self.new.items ≡ take len self.old.items }
        ensures spare { self.new.spare + len ≡ self.old.spare + length self.old.items }
    {
        self.inner.truncate(len);
    }
}

impl<T: Copy> Reserve<T> {
    // Puts these items in place of the first ones.
    pub(crate) fn overwrite(&mut self, items: &[T])
        requires { length items.now ≤ length self.old.items }
        ensures { self.new.items ≡ items.now ++ drop (length items.now) self.old.items }
    {
        put_front(self.inner.as_mut_slice(), items);
    }

    /// Appends all the items, or none where memory ran out.
    pub fn append(&mut self, items: &[T]) -> Result<(), NoMemory>
        ensures ok { OnOk result (self.new.items ≡ self.old.items ++ items.now) }
        ensures err { OnErr result (self.new.items ≡ self.old.items) }
        ensures spare { self.old.spare ≤ self.new.spare + length items.now }
        ensures succeeds { length items.now ≤ self.old.spare → IsOk result }
    {
        self.inner.extend_from_slice(items)?;
        Ok(())
    }
}

// Puts these items in place of the first ones.
fn put_front<T: Copy>(out: &mut [T], items: &[T])
    requires { length items.now ≤ length out.old }
    ensures { out.new ≡ items.now ++ drop (length items.now) out.old }
{
    out[..items.len()].copy_from_slice(items);
}
