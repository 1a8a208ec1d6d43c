//! The records of an eIM: one for each association and counter.
ghost use Rattle.std.specs.Prelude.{◌≡◌, ◌∷◌, [], ◌++◌, List, position, false, OnOk, OnErr};
ghost use Rattle.std.specs.Prelude.{slice_get};
ghost use Rattle.small_card.specs.declared.types.PackageResult.{PackageResult};
ghost use Rattle.std.specs.List.{list_any};
ghost use Rattle.esipa_codec.specs.Records.{is_of};
ghost use Rattle.eim_queue.specs.Places.{some_passes};
ghost use Rattle.eim_queue.specs.Records.{AreRecords};

use crate::places::{Places, keep_place, place};
use iot_bytes::{NoMemory, Row};
use small_card::PackageResult;
use std::alloc::Global;
use std::collections::BTreeMap;
use std::marker::Model;

/// The records, in the order of first receiving, each found by its association and counter.
#[derive(Debug, Drop)]
pub(crate) struct Records {
    rows: Row<PackageResult>,
    places: Places,
}

impl Model for Records {
    ghost use Rattle.std.specs.Prelude.{List, map};
    ghost use Rattle.small_card.specs.declared.types.PackageResult.{PackageResult};
    ghost use Rattle.esipa_codec.specs.Records.{key};
    ghost use Rattle.eim_queue.specs.Places.{ArePlaces};

    ghost Value = { List PackageResult };

    ghost view = { λ r. r.rows };

    ghost invariant = { λ r. ArePlaces r.places (map key r.rows) };
}

impl Records {
    /// No records. It takes no memory.
    pub(crate) fn new(alloc: Global) -> Records
        ensures { result ≡ [] }
    {
        Records {
            rows: Row::new(alloc),
            places: BTreeMap::new(alloc),
        }
    }

    /// The records as they stand.
    pub(crate) fn as_slice(&self) -> &[PackageResult]
        ensures { result.now ≡ self.now }
    {
        self.rows.as_slice()
    }

    fn place_of(&self, association: u32, counter: u64) -> Option<usize>
        ensures { result ≡ position (is_of association counter) self.now }
    {
        match place(&self.places, association, counter) {
            Some(at) => {
                if is_at(self.rows.as_slice(), at, association, counter) {
                    Some(at)
                } else {
                    None
                }
            }
            None => None,
        }
    }

    /// Whether there is a record of this association and counter.
    pub(crate) fn is_known(&self, association: u32, counter: u64) -> bool
        ensures { result ≡ list_any (is_of association counter) self.now }
    {
        self.place_of(association, counter).is_some()
    }

    fn add(&mut self, item: PackageResult) -> Result<(), NoMemory>
        requires { list_any (is_of item.association item.counter) self.old ≡ false }
        ensures ok { OnOk result (self.new ≡ self.old ++ item ∷ []) }
        ensures err { OnErr result (self.new ≡ self.old) }
    {
        let last = self.rows.len();
        keep_place(&mut self.places, item.association, item.counter, last)?;
        push_row(&mut self.rows, item)
    }

    /// Keeps a result, unless the record of its association and counter has its number or a
    /// greater one.
    pub(crate) fn receive(&mut self, item: PackageResult) -> Result<(), NoMemory>
        ensures ok { (received : List PackageResult) → AreRecords self.old received
            → OnOk result (AreRecords self.new (item ∷ received)) }
        ensures err { OnErr result (self.new ≡ self.old) }
    {
        match self.place_of(item.association, item.counter) {
            Some(at) => {
                if self.rows.as_slice()[at].seq < item.seq {
                    drop(self.rows.set(at, item));
                }
                Ok(())
            }
            None => self.add(item),
        }
    }
}

fn push_row(rows: &mut Row<PackageResult>, item: PackageResult) -> Result<(), NoMemory>
    ensures ok { OnOk result (rows.new ≡ rows.old ++ item ∷ []) }
    ensures err { OnErr result (rows.new ≡ rows.old) }
{
    rows.push(item).map_err(|_| NoMemory)
}

// Whether the row at this place is of this association and counter.
fn is_at(rows: &[PackageResult], at: usize, association: u32, counter: u64) -> bool
    ensures { result ≡ some_passes (is_of association counter) (slice_get rows.now at) }
{
    match rows.get(at) {
        Some(row) => row.association == association && row.counter == counter,
        None => false,
    }
}
