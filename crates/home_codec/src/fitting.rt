//! Whether the parts of a card fit together, each of which is in its ranges.

ghost use Rattle.std.specs.Prelude.{◌≡◌, ◌≤◌, ◌&&◌, true, false, MatchResult, length};
ghost use Rattle.std.specs.List.{list_all};
ghost use Rattle.small_card.specs.Cards.{Results};
ghost use Rattle.small_card.specs.Pairs.{each_pair, are_profiles_apart};
ghost use Rattle.small_card.specs.Valid.{is_unmarked as unmarked};
ghost use Rattle.eim_table.specs.Entries.{are_eims as eims_test};
ghost use Rattle.result_store.specs.Stores.{is_store as store_test};
ghost use Rattle.home_codec.specs.FullCards.{GivesCard};
ghost use Rattle.home_codec.specs.Reading.{is_counted, is_armed as armed_test, fits_together};
ghost use Rattle.home_codec.specs.Reading.{card_of_parts, whole};

use crate::card::Card;
use crate::head::Head;
use eim_table::Eims;
use iot_bytes::{ReadError, Row};
use profile_table::Table;
use result_store::Store;
use small_card::limits::{GREATEST_COUNTER, GREATEST_SEQ};
use small_card::{Armed, EimEntry, PackageResult, Profile};

// The table of the profiles, where they are apart.
fn table_of(profiles: Row<Profile>) -> Result<Table, ReadError>
    requires { length profiles ≤ 16 }
    ensures { MatchResult result
        (λ table. (table ≡ profiles) × (each_pair are_profiles_apart profiles ≡ true))
        (λ e. (e ≡ ReadError.Malformed) × (each_pair are_profiles_apart profiles ≡ false)) }
{
    match Table::of(profiles) {
        Ok(table) => Ok(table),
        Err(_profiles) => Err(ReadError::Malformed),
    }
}

fn are_eims(entries: &[EimEntry], next: u32) -> bool
    ensures { result ≡ eims_test (record { entries = entries.now; next = next }) }
{
    Eims::fits(entries, next)
}

fn is_store(pending: &[PackageResult], next: u32) -> bool
    ensures { result ≡ store_test (record { pending = pending.now; next = next }) }
{
    Store::fits(pending, next)
}

fn are_counted(entries: &[EimEntry]) -> bool
    ensures { result ≡ list_all is_counted entries.now }
{
    entries
        .iter()
        .all(|entry| entry.counter <= GREATEST_COUNTER)
}

fn is_unmarked(pending: &[PackageResult], seq: u32) -> bool
    ensures { result ≡ unmarked seq pending.now }
{
    pending.iter().any(|kept| kept.seq == seq && !kept.rolled)
}

// What is armed is on the card: the former profile, and the result; a number is left for its mark.
fn is_armed(table: &Table, pending: &[PackageResult], next: u32, armed: &Option<Armed>) -> bool
    ensures { result ≡ armed_test table.now
        (record { pending = pending.now; next = next }) armed.now }
{
    match armed {
        Some(armed) => {
            table.has(&armed.former) && is_unmarked(pending, armed.seq) && next < GREATEST_SEQ
        }
        None => true,
    }
}

// Whether the eIMs, the results and what is armed fit to the head and the table.
fn all_fit(head: &Head, table: &Table, eims: &[EimEntry], pending: &[PackageResult]) -> bool
    ensures { let rs : Results = record { pending = pending.now; next = head.now.seq } in
        result ≡ (eims_test (record { entries = eims.now; next = head.now.association })
        && store_test rs && list_all is_counted eims.now && armed_test table.now rs head.now.armed) }
{
    are_eims(eims, head.association)
        && is_store(pending, head.seq)
        && are_counted(eims)
        && is_armed(table, pending, head.seq, &head.armed)
}

/// The card of these parts, where they fit together.
#[tactic(auto, unfolding(crate::specs::Reading::fits_together))]
pub(crate) fn joined(
    head: Head,
    profiles: Row<Profile>,
    eims: Row<EimEntry>,
    pending: Row<PackageResult>,
) -> Result<Card, ReadError>
    requires { length profiles ≤ 16 }
    ensures { GivesCard result (whole (card_of_parts head profiles eims pending)) }
{
    let table = table_of(profiles)?;
    if !all_fit(&head, &table, eims.as_slice(), pending.as_slice()) {
        return Err(ReadError::Malformed);
    }
    Ok(Card {
        eid: head.eid,
        profiles: table,
        eims: Eims::of(eims, head.association)?,
        store: Store::of(pending, head.seq)?,
        armed: head.armed,
    })
}
