//! A card that was just made.

use super::*;
use profile_table::Table;
use sgp_values::{Eid, Iccid, Nickname};
use small_card::Profile;
use undo_journal::GATE;

fn first_profiles(alloc: Global) -> Result<Table, Fail> {
    let mut rows = Row::new(alloc);
    rows.append(&[Profile {
        iccid: Iccid::of(&A)?,
        enabled: false,
        nickname: Nickname::of(b"")?,
    }])?;
    Table::of(rows).map_err(|_| "no table".into())
}

/// The first octets of the home's first two blocks.
const FIRST: [u8; 28] = [
    1, 0, 1, 2, 3, 4, 5, 6, 7, 8, 9, 10, 11, 12, 13, 14, 15, 1, 0, 0, 0, 0, 1, 0, 0, 0, 1, 0,
];

const SECOND: [u8; 12] = [0x98, 0x44, 0, 0, 0, 0, 0, 0, 0, 1, 0, 0];

#[test]
fn a_new_card(rt: HostRuntime) -> Result<(), Fail> {
    let alloc = rt.alloc();
    let mut chip = MemChip::new(alloc, Row::new(alloc)).map_err(|_| "memory")?;
    put(&mut chip, GATE, &[0xA5])?;
    assert!(rt; is_unrecognised(alloc, &mut chip));
    let made = format(alloc, &mut chip, Eid::of(&EID)?, first_profiles(alloc)?);
    assert!(rt; made.is_ok());
    let (mut gate, mut first, mut second) = ([9], [9; 28], [9; 12]);
    chip.read(GATE, &mut gate).map_err(|_| "gate")?;
    chip.read(HOME, &mut first).map_err(|_| "first block")?;
    chip.read(HOME + 256, &mut second)
        .map_err(|_| "second block")?;
    assert!(rt; gate == [0] && first == FIRST && second == SECOND);
    assert!(rt; load(alloc, &mut chip).is_ok());
    an_image_stands_for_one_card();
    answers_are_held(&chip, &chip);
    losses_are_held(&chip, &chip);
    Ok(())
}
