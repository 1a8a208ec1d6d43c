//! That profiles are in their ranges.

ghost use Rattle.small_card.specs.Lists.{Every};
ghost use Rattle.small_card.specs.Ranges.{IsProfile};

use small_card::Profile;

// A profile's fields are in their ranges by their types; this only says so.
fn range(profile: &Profile)
    ensures { IsProfile profile.now }
{
    let _iccid = profile.iccid.octets();
    let _nickname = profile.nickname.octets();
}

// The same of each profile of a list.
pub(crate) fn ranges(profiles: &[Profile])
    ensures { Every IsProfile profiles.now }
{
    match profiles {
        [] => {}
        [first, rest @ ..] => {
            range(first);
            ranges(rest);
        }
    }
}
