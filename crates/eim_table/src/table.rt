ghost use Rattle.std.specs.Prelude.{◌≡◌, ◌≢◌, ◌↔◌, ◌≤◌, [], ℕ, true, find, map, IfOk};
ghost use Rattle.small_card.specs.EimOperations.{is_eim, line_of, with_counter, do_eco};
ghost use Rattle.small_card.specs.declared.types.Eco.TheVariants as eco;
ghost use Rattle.small_card.specs.declared.types.Item.TheVariants as item;
ghost use Rattle.eim_table.specs.Adding.{item_of};
ghost use Rattle.eim_table.specs.Entries.{IsEims, MayCount};

use crate::entries::{
    copy_entries, deletion_code, entry_of, has_eim, lines_of, put_last, set_counter, set_fields,
    take_out,
};
use iot_bytes::{NoMemory, Reserve, Row};
use sgp_values::{Address, EimId, Key};
use small_card::codes::{DONE, EXISTS, NO_ASSOCIATION_LEFT, NO_ENTRY_LEFT, NOT_FOUND};
use small_card::limits::MOST_EIMS;
use small_card::{EimEntry, EimLine, are_numbered};
use std::alloc::Global;
use std::marker::Model;

/// The eIMs of a card in the order in which they were added, at most 8, and the association that
/// the next one gets.
///
/// No two have one identifier or one association, and each association is from 1 to below the next
/// one. The memory for 8 entries is taken when the table is made.
#[derive(Debug, Drop)]
pub struct Eims {
    entries: Reserve<EimEntry>,
    next: u32,
}

impl Model for Eims {
    ghost use Rattle.small_card.specs.Cards.{EimList};

    ghost Value = { EimList };

    ghost use Rattle.eim_table.specs.Fields.{eims_of, IsKept};

    ghost view = { eims_of };

    ghost invariant = { IsKept };
}

/// How an addition ends.
#[derive(Clone, Copy, Debug, PartialEq, Eq)]
pub enum AddEnd {
    /// The eIM has an entry, with this association.
    Added(u32),
    /// The code of the refusal, as [`small_card::codes`] names them: 1 the eIM has an entry, 2
    /// there are eight entries, 3 no association is left. Nothing changed.
    Refused(u8),
}

impl Eims {
    /// The table without an entry, whose first eIM gets the association `next`.
    pub fn new(alloc: Global, next: u32) -> Result<Eims, NoMemory>
        requires { 1 ≤ next }
        ensures table { IfOk result (λ eims. eims ≡ record { entries = []; next = next }) }
    {
        Ok(Eims {
            entries: Reserve::with_room(alloc, MOST_EIMS)?,
            next,
        })
    }

    /// Whether these entries and the next association may stand in a table, as [`Eims::of`] wants
    /// it: at most 8 entries, no two with one identifier or one association, each association from
    /// 1 to below the next one, which is from 1. It takes no memory.
    pub fn fits(entries: &[EimEntry], next: u32) -> bool
        ensures exact { (result ≡ true) ↔ IsEims (record { entries = entries.now; next = next }) }
    {
        are_numbered(entries, MOST_EIMS, next)
    }

    /// The table of these entries, none or at most 8, whose next eIM gets the association `next`.
    ///
    /// It takes the memory for 8 entries from the row's own allocator. Where memory runs out the
    /// entries are dropped.
    pub fn of(entries: Row<EimEntry>, next: u32) -> Result<Eims, NoMemory>
        requires { IsEims (record { entries = entries; next = next }) }
        ensures table { IfOk result (λ eims. eims ≡ record { entries = entries; next = next }) }
    {
        let room = MOST_EIMS - entries.len();
        Ok(Eims {
            entries: Reserve::of(entries, room)?,
            next,
        })
    }

    /// Adds an eIM: it goes last, with counter 0 and the next association, which rises. It takes no
    /// memory.
    ///
    /// It is refused where it has an entry, else where there are eight, else where the next
    /// association is 4,294,967,295.
    #[tactic(auto, unfolding(small_card::specs::EimOperations::do_eco, small_card::specs::EimOperations::last_association, crate::specs::Adding::item_of))]
    pub fn add(&mut self, id: EimId, address: Address, key: Key) -> AddEnd
        ensures operation { (self.new, item_of result) ≡ do_eco self.old (eco.Add id address key) }
        ensures refused { (code : ℕ) → result ≡ AddEnd.Refused code → self.new ≡ self.old }
        ensures number { (n : ℕ) → result ≡ AddEnd.Added n → n ≡ self.old.next }
    {
        if has_eim(self.entries.as_slice(), &id) {
            return AddEnd::Refused(EXISTS);
        }
        if self.entries.len() >= MOST_EIMS {
            return AddEnd::Refused(NO_ENTRY_LEFT);
        }
        if self.next == u32::MAX {
            return AddEnd::Refused(NO_ASSOCIATION_LEFT);
        }
        let association = self.next;
        let entry = EimEntry {
            id,
            address,
            key,
            counter: 0,
            association,
        };
        put_last(&mut self.entries, entry);
        self.next = association + 1;
        AddEnd::Added(association)
    }

    /// Gives an eIM the fields that are named; its counter and its association stay. It takes no
    /// memory.
    ///
    /// Gives the code of [`Item::Update`](small_card::Item::Update): 0 done, 1 no entry.
    #[tactic(auto, unfolding(small_card::specs::EimOperations::do_eco))]
    pub fn update(&mut self, id: &EimId, address: Option<Address>, key: Option<Key>) -> u8
        ensures operation { (self.new, item.Update result)
            ≡ do_eco self.old (eco.Update id.now address key) }
        ensures refused { result ≢ 0 → self.new ≡ self.old }
    {
        if !has_eim(self.entries.as_slice(), id) {
            return NOT_FOUND;
        }
        set_fields(&mut self.entries, id, &address, &key);
        DONE
    }

    /// Deletes an eIM. Its association is never given out again. It takes no memory.
    ///
    /// Gives the code of [`Item::Dropped`](small_card::Item::Dropped): 0 done, 1 no entry, 2 done
    /// and none is left.
    #[tactic(auto, unfolding(small_card::specs::EimOperations::do_eco))]
    pub fn delete(&mut self, id: &EimId) -> u8
        ensures operation { (self.new, item.Dropped result) ≡ do_eco self.old (eco.Delete id.now) }
        ensures refused { result ≡ 1 → self.new ≡ self.old }
    {
        if !has_eim(self.entries.as_slice(), id) {
            return NOT_FOUND;
        }
        take_out(&mut self.entries, id);
        deletion_code(self.entries.as_slice())
    }

    /// Keeps the counter of a package that was taken from the eIM, for packages are taken in rising
    /// counters. It takes no memory.
    pub fn accept(&mut self, id: &EimId, counter: u64)
        requires lower { MayCount id.now counter self.old.entries }
        ensures counted { self.new ≡ record self.old { entries = with_counter id.now counter self.old.entries } }
    {
        set_counter(&mut self.entries, id, counter);
    }

    /// The entry of the eIM. It takes no memory.
    pub fn find(&self, id: &EimId) -> Option<EimEntry>
        ensures found { result ≡ find (is_eim id.now) self.now.entries }
    {
        entry_of(self.entries.as_slice(), id).copied()
    }

    /// The entries, in the order in which they were added. It takes no memory.
    pub fn rows(&self) -> &[EimEntry]
        ensures rows { result.now ≡ self.now.entries }
        ensures table { IsEims self.now }
    {
        self.entries.as_slice()
    }

    /// Tells a caller's proof that the entries may stand in a table. It does nothing.
    pub fn in_range(&self)
        ensures table { IsEims self.now }
    {
        let _ = &self.entries;
    }

    /// The association that the next eIM gets. It takes no memory.
    pub fn next(&self) -> u32
        ensures next { result ≡ self.now.next }
        ensures some { 1 ≤ result }
    {
        self.next
    }

    /// The entries without their keys, as the operation that lists them shows them.
    #[tactic(auto, unfolding(small_card::specs::EimOperations::do_eco))]
    pub fn list(&self, alloc: Global) -> Result<Row<EimLine>, NoMemory>
        ensures lines { IfOk result (λ rows. rows ≡ map line_of self.now.entries) }
        ensures operation { IfOk result (λ rows. (self.now, item.Eims rows)
            ≡ do_eco self.now eco.List) }
    {
        lines_of(alloc, self.entries.as_slice())
    }

    /// The same table once more, in memory of its own, with room for 8 entries.
    pub fn copy(&self, alloc: Global) -> Result<Eims, NoMemory>
        ensures equal { IfOk result (λ eims. eims ≡ self.now) }
    {
        Ok(Eims {
            entries: copy_entries(alloc, self.entries.as_slice())?,
            next: self.next,
        })
    }
}
