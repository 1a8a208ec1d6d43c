//! What the store does to the list of its results.

ghost use Rattle.std.specs.Prelude.{◌≡◌, ◌<◌, ◌≤◌, ◌+◌, ◌++◌, ◌∷◌, [], length, map, filter, find};
ghost use Rattle.std.specs.Prelude.{position, IfOk, IsSome};
ghost use Rattle.std.specs.Option.{option_copied, option_to_list};
ghost use Rattle.small_card.specs.Lists.{EveryPair, without};
ghost use Rattle.small_card.specs.Ranges.{IsBefore};
ghost use Rattle.small_card.specs.Units.{has_seq, with_mark};

use iot_bytes::{NoMemory, Reserve};
use small_card::PackageResult;
use std::alloc::Global;

fn place_of(rows: &[PackageResult], seq: u32) -> Option<usize>
    ensures { result ≡ position (has_seq seq) rows.now }
{
    rows.iter().position(|kept| kept.seq == seq)
}

pub(crate) fn find_result(rows: &[PackageResult], seq: u32) -> Option<&PackageResult>
    ensures { option_copied result ≡ find (has_seq seq) rows.now }
{
    rows.iter().find(|kept| kept.seq == seq)
}

pub(crate) fn take_out(pending: &mut Reserve<PackageResult>, seq: u32) -> Option<PackageResult>
    requires { EveryPair IsBefore pending.old.items }
    ensures rest { pending.new.items ≡ without (has_seq seq) pending.old.items }
    ensures taken { option_to_list result ≡ filter (has_seq seq) pending.old.items }
    ensures memory { length pending.old.items + pending.old.spare ≤ length pending.new.items + pending.new.spare }
    ensures place { IsSome result → 0 < pending.new.spare }
{
    match place_of(pending.as_slice(), seq) {
        Some(at) => Some(pending.remove(at)),
        None => None,
    }
}

pub(crate) fn put_last(pending: &mut Reserve<PackageResult>, kept: PackageResult)
    requires { 0 < pending.old.spare }
    ensures items { pending.new.items ≡ pending.old.items ++ kept ∷ [] }
    ensures memory { length pending.old.items + pending.old.spare ≤ length pending.new.items + pending.new.spare }
{
    pending.push(kept).unwrap()
}

fn with_mark(kept: PackageResult, number: u32) -> PackageResult
    ensures { result ≡ with_mark number kept }
{
    PackageResult {
        seq: number,
        rolled: true,
        ..kept
    }
}

pub(crate) fn mark_last(pending: &mut Reserve<PackageResult>, seq: u32, number: u32)
    requires { EveryPair IsBefore pending.old.items }
    ensures items { pending.new.items ≡ without (has_seq seq) pending.old.items
        ++ map (with_mark number) (filter (has_seq seq) pending.old.items) }
    ensures memory { length pending.old.items + pending.old.spare ≤ length pending.new.items + pending.new.spare }
{
    if let Some(kept) = take_out(pending, seq) {
        put_last(pending, with_mark(kept, number));
    }
}

pub(crate) fn copy_results(
    alloc: Global,
    rows: &[PackageResult],
    room: usize,
) -> Result<Reserve<PackageResult>, NoMemory>
    ensures items { IfOk result (λ held. held.items ≡ rows.now) }
    ensures memory { IfOk result (λ held. room ≤ length held.items + held.spare) }
{
    let mut out = Reserve::with_room(alloc, room)?;
    for kept in rows {
        out.push(kept.copy(alloc)?).map_err(|_| NoMemory)?;
    }
    Ok(out)
}
