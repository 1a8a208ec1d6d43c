//! The slots of profiles and of eIMs.

ghost use Rattle.std.specs.Prelude.{◌≡◌, ◌≤◌, ◌*◌, ℕ, List, Option, Some, IfOk, MatchResult};
ghost use Rattle.std.specs.Prelude.{length};
ghost use Rattle.home_codec.specs.Fixed.{Reads, Fails, many_at, slots_at};
ghost use Rattle.home_codec.specs.Reading.{state_at, profile_at, eim_at};

use crate::fixed::FixedFields;
use crate::layout::{EIM_END, ICCID, NICKNAME, PROFILE_END, TEXT};
use iot_bytes::{ReadError, Row};
use sgp_values::{Address, EimId, Iccid, Key, Nickname};
use small_card::{EimEntry, Profile};
use std::alloc::Global;

#[tactic(auto, unfolding(crate::specs::Reading::state_at))]
fn state<'a>(octets: &mut FixedFields<'a>) -> Result<bool, ReadError>
    ensures { Reads result (state_at octets.old) octets.new }
{
    match octets.octet()? {
        0 => Ok(false),
        1 => Ok(true),
        _ => Err(ReadError::Malformed),
    }
}

#[tactic(auto, unfolding(crate::specs::Reading::profile_at))]
fn profile<'a>(octets: &mut FixedFields<'a>) -> Result<Profile, ReadError>
    ensures { Reads result (profile_at octets.old) octets.new }
{
    let profile = Profile {
        iccid: octets.fixed::<Iccid>(ICCID)?,
        enabled: state(octets)?,
        nickname: octets.text::<Nickname>(NICKNAME)?,
    };
    octets.blank(PROFILE_END)?;
    Ok(profile)
}

#[tactic(auto, unfolding(crate::specs::Reading::eim_at))]
fn eim<'a>(octets: &mut FixedFields<'a>) -> Result<EimEntry, ReadError>
    ensures { Reads result (eim_at octets.old) octets.new }
{
    let entry = EimEntry {
        id: octets.text::<EimId>(TEXT)?,
        address: octets.text::<Address>(TEXT)?,
        key: octets.text::<Key>(TEXT)?,
        counter: octets.long()?,
        association: octets.word()?,
    };
    octets.blank(EIM_END)?;
    Ok(entry)
}

/// What stands in a slot.
pub(crate) trait Slotted: Copy {
    /// What a slot at the front holds, and what follows.
    ghost slot_at: { List ℕ → Option (Self × List ℕ) };

    /// Reads the slot at the front.
    fn read<'a>(octets: &mut FixedFields<'a>) -> Result<Self, ReadError>
        ensures { Reads result (slot_at octets.old) octets.new };
}

impl Slotted for Profile {
    ghost slot_at = { profile_at };

    fn read<'a>(octets: &mut FixedFields<'a>) -> Result<Profile, ReadError> {
        profile(octets)
    }
}

impl Slotted for EimEntry {
    ghost slot_at = { eim_at };

    fn read<'a>(octets: &mut FixedFields<'a>) -> Result<EimEntry, ReadError> {
        eim(octets)
    }
}

// So many entries.
fn many<'a, T: Slotted>(
    alloc: Global,
    octets: &mut FixedFields<'a>,
    n: usize,
) -> Result<Row<T>, ReadError>
    ensures { MatchResult result
        (λ rows. many_at T.slot_at n octets.old ≡ Some (rows, octets.new))
        (λ e. Fails e (many_at T.slot_at n octets.old)) }
{
    let mut rows = Row::new(alloc);
    for i in 0..n {
        let entry = match T::read(octets) {
            Ok(entry) => entry,
            Err(error) => return Err(error),
        };
        if rows.push(entry).is_err() {
            return Err(ReadError::NoMemory);
        }
    }
    Ok(rows)
}

/// The entries in the first `n` of all slots of a size; the other slots are zeros.
#[tactic(auto, unfolding(crate::specs::Fixed::slots_at))]
pub(crate) fn slots<'a, T: Slotted>(
    alloc: Global,
    octets: &mut FixedFields<'a>,
    size: usize,
    all: usize,
    n: usize,
) -> Result<Row<T>, ReadError>
    requires { size * all ≤ 4096 }
    ensures read { MatchResult result
        (λ rows. slots_at T.slot_at size all n octets.old ≡ Some (rows, octets.new))
        (λ e. Fails e (slots_at T.slot_at size all n octets.old)) }
    ensures few { IfOk result (λ rows. length rows ≤ all) }
{
    if n > all {
        return Err(ReadError::Malformed);
    }
    let rows = many::<T>(alloc, octets, n)?;
    octets.blank(size * (all - n))?;
    Ok(rows)
}
