//! Changes of a table's list, in place.

ghost use Rattle.std.specs.Prelude.{◌≡◌, false, position};
ghost use Rattle.small_card.specs.Profiles.{is_iccid, with_state, enabled_alone, none_enabled};
ghost use Rattle.small_card.specs.Profiles.{without_profile};
ghost use Rattle.small_card.specs.Ranges.{IsTable};

use iot_bytes::Row;
use sgp_values::Iccid;
use small_card::Profile;

pub(crate) fn place_of(rows: &[Profile], iccid: &Iccid) -> Option<usize>
    ensures { result ≡ position (is_iccid iccid.now) rows.now }
{
    rows.iter().position(|p| *iccid == p.iccid)
}

// The profile, enabled exactly where it has this ICCID.
fn enabled_by(profile: &Profile, iccid: &Iccid) -> Profile
    ensures { result ≡ with_state (is_iccid iccid.now profile.now) profile.now }
{
    Profile {
        enabled: *iccid == profile.iccid,
        ..*profile
    }
}

fn disabled(profile: &Profile) -> Profile
    ensures { result ≡ with_state false profile.now }
{
    Profile {
        enabled: false,
        ..*profile
    }
}

#[tactic(auto, unfolding(small_card::specs::Profiles::enabled_alone))]
pub(crate) fn enable_alone(rows: &mut Row<Profile>, iccid: &Iccid)
    ensures { rows.new ≡ enabled_alone iccid.now rows.old }
{
    for at in 0..rows.len() {
        let profile = rows.as_slice()[at];
        rows.set(at, enabled_by(&profile, iccid));
    }
}

#[tactic(auto, unfolding(small_card::specs::Profiles::none_enabled))]
pub(crate) fn disable_all(rows: &mut Row<Profile>)
    ensures { rows.new ≡ none_enabled rows.old }
{
    for at in 0..rows.len() {
        let profile = rows.as_slice()[at];
        rows.set(at, disabled(&profile));
    }
}

pub(crate) fn remove(rows: &mut Row<Profile>, iccid: &Iccid)
    requires { IsTable rows.old }
    ensures { rows.new ≡ without_profile iccid.now rows.old }
{
    if let Some(at) = place_of(rows.as_slice(), iccid) {
        rows.remove(at);
    }
}
