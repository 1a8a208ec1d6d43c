ghost use Rattle.std.specs.Prelude.{◌≡◌, Some, Ok, Err, find, MatchOption, MatchResult};
ghost use Rattle.small_card.specs.Checks.{later_refusal};
ghost use Rattle.small_card.specs.Histories.{History, card_of, kept};
ghost use Rattle.small_card.specs.Legal.{IsLegal};
ghost use Rattle.small_card.specs.EimOperations.{is_eim};
ghost use Rattle.small_card.specs.Ranges.{IsPackage};
ghost use Rattle.package_codec.specs.Checks.{package_refusal};
ghost use Rattle.counter_check.specs.Loads.{IsCardOf, IsForEntry, Passes, check_request};

use crate::received::{Received, refused};
use eim_table::Eims;
use result_store::Store;
use sgp_values::Eid;
use small_card::codes::load::{
    BAD_VERDICT, NO_ROOM, REPLAY, UNKNOWN_EIM, WRONG_ASSOCIATION, WRONG_EID,
};
use small_card::{EimEntry, Package, Refused};
use std::marker::Model;

/// A package that passed all checks of the card that it was checked against.
#[derive(Debug, Drop)]
pub struct Checked {
    load: Package,
}

impl Model for Checked {
    ghost use Rattle.small_card.specs.declared.types.Package.{Package};
    ghost use Rattle.small_card.specs.Ranges.{IsPackage};

    ghost Value = { Package };

    ghost view = { λ c. c.load };

    ghost invariant = { λ c. IsPackage c.load };
}

// The checks after the verdict, against the entry of the package's eIM.
fn entry_refusal(load: &Package, eid: &Eid, entry: &EimEntry, store: &Store) -> Option<Refused>
    ensures passes { MatchOption result (IsForEntry load.now eid.now entry.now store.now)
        (λ _. ¬ IsForEntry load.now eid.now entry.now store.now) }
    ensures first { (h : History) → IsLegal h → (card_of h).eid ≡ eid.now
        → (card_of h).results ≡ store.now
        → find (is_eim load.now.eim) (card_of h).eims.entries ≡ Some entry.now
        → later_refusal (card_of h) (kept h load.now.eim load.now.association) load.now ≡ result }
{
    if load.eid != *eid {
        return Some(refused(WRONG_EID));
    }
    if entry.association != load.association {
        return Some(refused(WRONG_ASSOCIATION));
    }
    if load.counter <= entry.counter {
        return Some(Refused {
            code: REPLAY,
            kept: entry.counter,
            received: load.counter,
        });
    }
    if !store.has_room() {
        return Some(refused(NO_ROOM));
    }
    None
}

// The first check that the package fails.
fn refusal(good: bool, load: &Package, eid: &Eid, eims: &Eims, store: &Store) -> Option<Refused>
    ensures passes { MatchOption result (Passes
        (record { good = good; load = load.now }) eid.now eims.now store.now)
        (λ _. ¬ Passes (record { good = good; load = load.now }) eid.now eims.now store.now) }
    ensures first { (h : History) → IsCardOf h eid.now eims.now store.now
        → package_refusal h good load.now ≡ result }
{
    let Some(entry) = eims.find(&load.eim) else {
        return Some(refused(UNKNOWN_EIM));
    };
    if !good {
        return Some(refused(BAD_VERDICT));
    }
    entry_refusal(load, eid, &entry, store)
}

impl Received {
    /// Checks the package against a card's EID, eIMs and pending results. It takes no memory, and
    /// drops the package where it is refused.
    ///
    /// # Errors
    /// The first of these that applies: code 2 no such eIM, 3 a bad verdict, 4 another card's EID,
    /// 5 another association, 6 a counter that isn't above the kept one, 7 no room for a result.
    pub fn check(self, eid: &Eid, eims: &Eims, store: &Store) -> Result<Checked, Refused>
        ensures passes { MatchResult result (λ accepted. Passes self eid.now eims.now store.now
            × (accepted ≡ self.load))
            (λ _. ¬ Passes self eid.now eims.now store.now) }
        ensures checked { (h : History) → IsCardOf h eid.now eims.now store.now
            → MatchResult result (λ accepted. check_request h self ≡ Ok accepted)
            (λ why. check_request h self ≡ Err why) }
    {
        let Received { good, load } = self;
        match refusal(good, &load, eid, eims, store) {
            Some(why) => Err(why),
            None => Ok(Checked { load }),
        }
    }
}

impl Checked {
    /// The package that passed.
    pub fn package(&self) -> &Package
        ensures value { result.now ≡ self.now }
        ensures range { IsPackage self.now }
    {
        &self.load
    }
}
