//! Where the order or the record of each association and counter stands.
ghost use Rattle.std.specs.Prelude.{◌≡◌, Some, if◌then◌else◌, OnOk, OnErr};
ghost use Rattle.esipa_codec.specs.Records.{Key};
ghost use Rattle.eim_queue.specs.Places.{is_key, place_in};

use iot_bytes::NoMemory;
use std::collections::BTreeMap;

/// The place that is kept for an association and a counter.
pub(crate) type Places = BTreeMap<(u32, u64), usize>;

/// The place that is kept for this association and counter.
pub(crate) fn place(places: &Places, association: u32, counter: u64) -> Option<usize>
    ensures { result ≡ place_in places.now (association, counter) }
{
    places.get(&(association, counter)).copied()
}

/// Keeps a place for this association and counter.
pub(crate) fn keep_place(
    places: &mut Places,
    association: u32,
    counter: u64,
    at: usize,
) -> Result<(), NoMemory>
    ensures ok { (k : Key) → OnOk result (place_in places.new k
        ≡ (if is_key association counter k then Some at else place_in places.old k)) }
    ensures err { (k : Key) → OnErr result (place_in places.new k ≡ place_in places.old k) }
{
    match places.insert((association, counter), at) {
        Ok(_) => Ok(()),
        Err(_) => Err(NoMemory),
    }
}
