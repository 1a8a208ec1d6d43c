//! The head of a home.

ghost use Rattle.std.specs.Prelude.{◌≡◌, Some, None, MatchResult};
ghost use Rattle.home_codec.specs.Fixed.{Reads};
ghost use Rattle.home_codec.specs.Reading.{armed_fields, not_armed, armed_at, head_fields, head_at};

use crate::fixed::FixedFields;
use crate::layout::{EID, HEAD_END, ICCID, NOT_ARMED, VERSION};
use iot_bytes::ReadError;
use sgp_values::{Eid, Iccid};
use small_card::Armed;

/// What the head says of a card.
#[derive(Clone, Copy, Debug)]
pub(crate) struct Head {
    pub eid: Eid,
    pub profiles: u8,
    pub eims: u8,
    pub association: u32,
    pub seq: u32,
    pub armed: Option<Armed>,
}

#[tactic(auto, unfolding(crate::specs::Reading::armed_fields))]
fn armed_pair<'a>(octets: &mut FixedFields<'a>) -> Result<Option<Armed>, ReadError>
    ensures { Reads result (armed_fields octets.old) octets.new }
{
    let former = octets.fixed::<Iccid>(ICCID)?;
    let seq = octets.word()?;
    Ok(Some(Armed { former, seq }))
}

#[tactic(auto, unfolding(crate::specs::Reading::not_armed))]
fn nothing_armed<'a>(octets: &mut FixedFields<'a>) -> Result<Option<Armed>, ReadError>
    ensures { Reads result (not_armed octets.old) octets.new }
{
    octets.blank(NOT_ARMED)?;
    Ok(None)
}

#[tactic(auto, unfolding(crate::specs::Reading::armed_at))]
fn armed<'a>(octets: &mut FixedFields<'a>) -> Result<Option<Armed>, ReadError>
    ensures { Reads result (armed_at octets.old) octets.new }
{
    match octets.octet()? {
        0 => nothing_armed(octets),
        1 => armed_pair(octets),
        _ => Err(ReadError::Malformed),
    }
}

#[tactic(auto, unfolding(crate::specs::Reading::head_fields))]
fn fields<'a>(octets: &mut FixedFields<'a>) -> Result<Head, ReadError>
    ensures { Reads result (head_fields octets.old) octets.new }
{
    let head = Head {
        eid: octets.fixed::<Eid>(EID)?,
        profiles: octets.octet()?,
        eims: octets.octet()?,
        association: octets.word()?,
        seq: octets.word()?,
        armed: armed(octets)?,
    };
    octets.blank(HEAD_END)?;
    Ok(head)
}

/// The head at the front.
#[tactic(auto, unfolding(crate::specs::Reading::head_at))]
pub(crate) fn read_head<'a>(octets: &mut FixedFields<'a>) -> Result<Head, ReadError>
    ensures { Reads result (head_at octets.old) octets.new }
{
    if octets.octet()? != VERSION {
        return Err(ReadError::Malformed);
    }
    fields(octets)
}
