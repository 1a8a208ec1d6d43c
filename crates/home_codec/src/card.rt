//! The parts of a card.

use eim_table::Eims;
use iot_bytes::NoMemory;
use profile_table::Table;
use result_store::Store;
use sgp_values::Eid;
use small_card::Armed;
use std::alloc::Global;

/// The parts of a card. `armed` is the rollback that is permitted.
#[derive(Debug, Drop)]
pub struct Card {
    pub eid: Eid,
    pub profiles: Table,
    pub eims: Eims,
    pub store: Store,
    pub armed: Option<Armed>,
}

impl Card {
    ghost use Rattle.std.specs.Prelude.{◌≡◌, IfOk};
    ghost use Rattle.home_codec.specs.FullCards.{full_card};

    /// The same card once more, in memory of its own.
    pub fn copy(&self, alloc: Global) -> Result<Card, NoMemory>
        ensures { IfOk result (λ card. full_card card ≡ full_card self.now) }
    {
        Ok(Card {
            eid: self.eid,
            profiles: self.profiles.copy(alloc)?,
            eims: self.eims.copy(alloc)?,
            store: self.store.copy(alloc)?,
            armed: self.armed,
        })
    }
}
