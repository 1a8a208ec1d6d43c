ghost use Rattle.std.specs.Prelude.{◌≡◌, ◌≢◌, [], None, false, position, IfOk, MatchResult};
ghost use Rattle.small_card.specs.Profiles.{is_iccid, has_profile, is_enabled, enabled_of, do_psmo};
ghost use Rattle.small_card.specs.Ranges.{IsTable};
ghost use Rattle.small_card.specs.declared.types.Psmo.TheVariants as psmo;
ghost use Rattle.small_card.specs.declared.types.Item.TheVariants as item;
ghost use Rattle.profile_table.specs.Tables.{MayStand};

use crate::ranging::ranges;
use crate::rows;
use iot_bytes::{NoMemory, Row};
use sgp_values::Iccid;
use small_card::codes::{DONE, NOT_FOUND, WRONG_STATE};
use small_card::limits::MOST_PROFILES;
use small_card::{Profile, are_all_apart};
use std::alloc::Global;
use std::marker::Model;

/// The profiles of a card: at most 16, with distinct ICCIDs, at most one of them enabled. Contracts
/// see it as the list of its profiles.
#[derive(Debug, Drop)]
pub struct Table {
    rows: Row<Profile>,
}

impl Model for Table {
    ghost use Rattle.std.specs.Prelude.{List};
    ghost use Rattle.small_card.specs.declared.types.Profile.{Profile};
    ghost use Rattle.small_card.specs.Ranges.{IsTable};

    ghost Value = { List Profile };

    ghost view = { λ t. t.rows };

    ghost invariant = { λ t. IsTable t.rows };
}

impl Table {
    /// The table of these profiles, in their order. It takes no memory.
    ///
    /// # Errors
    /// The same list, where it has more than 16 profiles, two of one ICCID or two that are enabled.
    #[tactic(auto, using(crate::proofs::Apart::table_of, crate::proofs::Apart::no_table))]
    pub fn of(profiles: Row<Profile>) -> Result<Table, Row<Profile>>
        ensures same { MatchResult result (λ table. table ≡ profiles) (λ back. back ≡ profiles) }
        ensures exact { MatchResult result (λ _. IsTable profiles) (λ _. ¬ MayStand profiles) }
    {
        if profiles.len() > MOST_PROFILES || !are_all_apart(profiles.as_slice()) {
            return Err(profiles);
        }
        ranges(profiles.as_slice());
        Ok(Table { rows: profiles })
    }

    /// The profiles, in their order.
    pub fn rows(&self) -> &[Profile]
        ensures value { result.now ≡ self.now }
        ensures valid { IsTable self.now }
    {
        self.rows.as_slice()
    }

    /// Tells a caller's proof that the profiles are a table. It does nothing.
    pub fn in_range(&self)
        ensures table { IsTable self.now }
    {
        let _ = &self.rows;
    }

    /// The place of the profile with this ICCID, counted from 0.
    pub fn find(&self, iccid: &Iccid) -> Option<usize>
        ensures { result ≡ position (is_iccid iccid.now) self.now }
    {
        rows::place_of(self.rows.as_slice(), iccid)
    }

    /// Whether the profile with this ICCID is in the table.
    #[tactic(auto, unfolding(small_card::specs::Profiles::has_profile))]
    pub fn has(&self, iccid: &Iccid) -> bool
        ensures { result ≡ has_profile iccid.now self.now }
    {
        self.rows.as_slice().iter().any(|p| *iccid == p.iccid)
    }

    /// Whether the profile with this ICCID is in the table and enabled.
    #[tactic(auto, unfolding(small_card::specs::Profiles::is_enabled))]
    pub fn is_enabled(&self, iccid: &Iccid) -> bool
        ensures { result ≡ is_enabled iccid.now self.now }
    {
        self.rows
            .as_slice()
            .iter()
            .any(|p| *iccid == p.iccid && p.enabled)
    }

    /// The ICCID of the profile that is enabled.
    #[tactic(auto, unfolding(small_card::specs::Profiles::enabled_of))]
    pub fn enabled(&self) -> Option<Iccid>
        ensures { result ≡ enabled_of self.now }
    {
        self.rows
            .as_slice()
            .iter()
            .find(|p| p.enabled)
            .map(|p| p.iccid)
    }

    /// Enables this profile, and disables the one that was enabled.
    ///
    /// Gives the code of [`Item::Enable`](small_card::Item::Enable): 0 done, 1 not found, 2 enabled
    /// before.
    #[tactic(auto, unfolding(small_card::specs::Profiles::do_psmo))]
    pub fn enable(&mut self, iccid: &Iccid) -> u8
        ensures operation { (self.new, item.Enable result)
            ≡ do_psmo None [] self.old (psmo.Enable iccid.now false) }
        ensures refused { result ≢ 0 → self.new ≡ self.old }
    {
        if !self.has(iccid) {
            return NOT_FOUND;
        }
        if self.is_enabled(iccid) {
            return WRONG_STATE;
        }
        rows::enable_alone(&mut self.rows, iccid);
        DONE
    }

    /// Disables this profile.
    ///
    /// Gives the code of [`Item::Disable`](small_card::Item::Disable): 0 done, 1 not found, 2 not
    /// enabled.
    #[tactic(auto, unfolding(small_card::specs::Profiles::do_psmo))]
    pub fn disable(&mut self, iccid: &Iccid) -> u8
        ensures operation { (self.new, item.Disable result)
            ≡ do_psmo None [] self.old (psmo.Disable iccid.now) }
        ensures refused { result ≢ 0 → self.new ≡ self.old }
    {
        if !self.has(iccid) {
            return NOT_FOUND;
        }
        if !self.is_enabled(iccid) {
            return WRONG_STATE;
        }
        rows::disable_all(&mut self.rows);
        DONE
    }

    /// Deletes this profile, where no rollback is armed.
    ///
    /// Gives the code of [`Item::Delete`](small_card::Item::Delete): 0 done, 1 not found, 2
    /// enabled. Code 3, for a profile that a rollback may give back, is the caller's: the table
    /// knows of no rollback.
    #[tactic(auto, unfolding(small_card::specs::Profiles::do_psmo, small_card::specs::Profiles::has_armed))]
    pub fn delete(&mut self, iccid: &Iccid) -> u8
        ensures operation { (self.new, item.Delete result)
            ≡ do_psmo None [] self.old (psmo.Delete iccid.now) }
        ensures refused { result ≢ 0 → self.new ≡ self.old }
    {
        if !self.has(iccid) {
            return NOT_FOUND;
        }
        if self.is_enabled(iccid) {
            return WRONG_STATE;
        }
        rows::remove(&mut self.rows, iccid);
        DONE
    }

    /// The profiles as a list of their own, as the operation that lists them shows them.
    #[tactic(auto, unfolding(small_card::specs::Profiles::do_psmo))]
    pub fn list(&self, alloc: Global) -> Result<Row<Profile>, NoMemory>
        ensures value { IfOk result (λ row. row ≡ self.now) }
        ensures operation { IfOk result (λ row. (self.now, item.Profiles row)
            ≡ do_psmo None [] self.now psmo.List) }
    {
        self.rows.copy(alloc)
    }

    /// A table of the same profiles, in memory of its own.
    pub fn copy(&self, alloc: Global) -> Result<Table, NoMemory>
        ensures { IfOk result (λ table. table ≡ self.now) }
    {
        Ok(Table {
            rows: self.rows.copy(alloc)?,
        })
    }
}
